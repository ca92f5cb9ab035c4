// The table of codes, in numbers.
ghost use Rattle.std.specs.Prelude.{◌≡◌};
ghost use Rattle.model.specs.Rows.{kind_of, shape_of, means_at, number_of_kind};
ghost use Rattle.image.specs.Located.{tables, RowOf};
ghost use Rattle.rows.specs.Lines.{Table, Tells};

use image::Automaton;

// The codes are below it.
pub const CODES: usize = 61;

// Numbers, since an enum of kinds with a match on each code is slower: measured, check of a large image takes 8 % longer.
// By code: the kind of its rows, the form of their fields, and a digit for each of a, b and c: the kind of the row that it
// names, E for the next row of the same kind, F where it names none.
// Kinds: 0 expression, 1 pattern, 2 offer, 3 gets, 4 of type, 5 item, 6 range, 7 action, 8 branch, 9 arm, A unknown.
pub const LINES: [u32; CODES] = [
    0xA_00_FFF, // 0
    0x0_01_FFF, // 1 variable
    0x0_02_FFF, // 2 constant
    0xA_00_FFF, // 3
    0xA_00_FFF, // 4
    0xA_00_FFF, // 5
    0xA_00_FFF, // 6
    0xA_00_FFF, // 7
    0xA_00_FFF, // 8
    0xA_00_FFF, // 9
    0xA_00_FFF, // 10
    0xA_00_FFF, // 11
    0xA_00_FFF, // 12
    0xA_00_FFF, // 13
    0xA_00_FFF, // 14
    0xA_00_FFF, // 15
    0x0_10_0FF, // 16 not
    0x0_11_00F, // 17 and
    0x0_11_00F, // 18 or
    0x0_10_0FF, // 19 negate
    0x0_11_00F, // 20 plus
    0x0_11_00F, // 21 minus
    0x0_11_00F, // 22 times
    0x0_11_00F, // 23 quotient
    0x0_11_00F, // 24 remainder
    0x0_11_00F, // 25 equal
    0x0_11_00F, // 26 less
    0x0_11_00F, // 27 less or equal
    0xA_00_FFF, // 28
    0xA_00_FFF, // 29
    0xA_00_FFF, // 30
    0xA_00_FFF, // 31
    0x1_03_FFF, // 32 any
    0x1_01_FFF, // 33 variable pattern
    0x1_02_FFF, // 34 constant pattern
    0x1_11_10F, // 35 where
    0xA_00_FFF, // 36
    0xA_00_FFF, // 37
    0xA_00_FFF, // 38
    0xA_00_FFF, // 39
    0x2_12_0EF, // 40 emit
    0x2_12_1EF, // 41 receive
    0xA_00_FFF, // 42
    0xA_00_FFF, // 43
    0x3_15_F0E, // 44 gets
    0x4_14_FFE, // 45 of type
    0x5_13_FEF, // 46 item
    0x6_04_FFF, // 47 range
    0x7_00_FFF, // 48 null
    0x7_20_3FF, // 49 assign
    0x7_21_40F, // 50 choose
    0x7_20_5FF, // 51 reset
    0x7_22_F2F, // 52 communicate
    0x7_05_FFF, // 53 to
    0x7_11_77F, // 54 then
    0x7_23_8FF, // 55 select
    0x7_24_09F, // 56 case
    0x8_12_7EF, // 57 branch
    0x9_16_17E, // 58 arm
    0x7_11_07F, // 59 while
    0x7_11_67F, // 60 for
];

pub const EXPRESSION: u32 = 0;

pub const ACTION: u32 = 7;

pub const UNKNOWN: u32 = 0xA;

pub const NEXT: u32 = 0xE;

pub const PLAIN: u32 = 0xF;

// A line of the table.
#[derive(Clone, Copy)]
pub struct Line {
    pub kind: u32,
    pub form: u32,
    pub a: u32,
    pub b: u32,
    pub c: u32,
}

// The line of a code. The table is lent: a constant would be laid out anew at each look.
pub fn line_of(lines: &[u32; CODES], code: u16) -> Line
    requires { Table lines.now }
    ensures { Tells result (shape_of code) }
{
    let at = code as usize;
    if at < CODES {
        let e = lines[at];
        Line {
            kind: e / 0x100000,
            form: e / 0x1000 % 0x100,
            a: e / 0x100 % 0x10,
            b: e / 0x10 % 0x10,
            c: e % 0x10,
        }
    } else {
        Line {
            kind: UNKNOWN,
            form: 0,
            a: PLAIN,
            b: PLAIN,
            c: PLAIN,
        }
    }
}

// The kind of a row.
pub fn kind(x: &Automaton, lines: &[u32; CODES], r: u16) -> u32
    requires { RowOf x.now.image.now x.now.trailer r × Table lines.now }
    ensures { result ≡ number_of_kind (kind_of (means_at (tables x.now) r)) }
{
    let c = x.code(r);
    let l = line_of(lines, c);
    l.kind
}
