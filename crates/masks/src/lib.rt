// Masks: sets of variables and of states, and the masks of an image's rows.
#![tactic(auto)]

ghost use Rattle.std.specs.Prelude.{◌≡◌, ◌≤◌, ◌<◌};
ghost use Rattle.model.specs.Masks.{bit, full, without, inside, apart};
ghost use Rattle.model.specs.Image.{row_count};
ghost use Rattle.model.specs.Rows.{shape_of};
ghost use Rattle.model.specs.Binding.{parameters_of};
ghost use Rattle.image.specs.Located.{tables, Formed};
ghost use Rattle.masks.specs.Masks.{masks_in, Filled};
ghost use Rattle.masks.specs.Rows.{joined, masks_by, Small, Lent, Fit};

use image::Automaton;
use model::Fields;

// Just v.
pub fn bit(v: u16) -> u64
    requires { v < 64 }
    ensures { result ≡ bit v }
{
    1 << v
}

// All below n.
pub fn full(n: u16) -> u64
    requires { n ≤ 64 }
    ensures { result ≡ full n }
{
    if n == 64 {
        return !0;
    }
    bit(n) - 1
}

// What is in a and not in b.
pub fn without(a: u64, b: u64) -> u64
    ensures { result ≡ without a b }
{
    a & !b
}

// Each of a is in b.
pub fn inside(a: u64, b: u64) -> bool
    ensures { result ≡ inside a b }
{
    a & b == a
}

// Nothing is in both.
pub fn apart(a: u64, b: u64) -> bool
    ensures { result ≡ apart a b }
{
    a & b == 0
}

// The masks of a row: the variables that it uses, those that it defines or resets, the states that it leads to.
#[derive(Clone, Copy)]
pub struct Masks {
    pub uses: u64,
    pub defs: u64,
    pub leads: u64,
}

impl Masks {
    pub const NOTHING: Masks = Masks {
        uses: 0,
        defs: 0,
        leads: 0,
    };
}

// The masks of row r, or of the list that starts there. None is past the end: an empty list has nothing.
pub fn masks_in(masks: &[Masks], r: u16) -> Masks
    ensures { result ≡ masks_in masks.now r }
{
    let at = r as usize;
    if at < masks.len() {
        masks[at]
    } else {
        Masks::NOTHING
    }
}

// The masks of two rows, joined.
fn joined(masks: &[Masks], a: u16, b: u16) -> Masks
    ensures { result ≡ joined (masks_in masks.now a) (masks_in masks.now b) }
{
    let x = masks_in(masks, a);
    let y = masks_in(masks, b);
    Masks {
        uses: x.uses | y.uses,
        defs: x.defs | y.defs,
        leads: x.leads | y.leads,
    }
}

// The masks of a row from its fields and the masks of lower rows: what it names, and its own variable or state. An action
// uses nothing here: what its expressions use is asked where they are judged.
fn masks_of(w: Fields, masks: &[Masks]) -> Masks
    requires { Small (shape_of w.code).means w.a }
    ensures { result ≡ masks_by (masks_in masks.now) w (shape_of w.code).means }
{
    let code = w.code;
    let a = w.a;
    let b = w.b;
    let c = w.c;
    match code {
        1 => Masks {
            uses: bit(a),
            ..Masks::NOTHING
        },
        16 | 19 => Masks {
            uses: masks_in(masks, a).uses,
            ..Masks::NOTHING
        },
        17 | 18 | 20..=27 => Masks {
            uses: joined(masks, a, b).uses,
            ..Masks::NOTHING
        },
        33 | 47 => Masks {
            defs: bit(a),
            ..Masks::NOTHING
        },
        35 => {
            let pattern = masks_in(masks, a);
            Masks {
                uses: without(masks_in(masks, b).uses, pattern.defs) | pattern.uses,
                leads: 0,
                ..pattern
            }
        }
        40 => Masks {
            uses: joined(masks, a, b).uses,
            defs: masks_in(masks, b).defs,
            leads: 0,
        },
        41 => Masks {
            leads: 0,
            ..joined(masks, a, b)
        },
        44 => Masks {
            uses: joined(masks, b, c).uses,
            defs: bit(a) | masks_in(masks, c).defs,
            leads: 0,
        },
        45 => Masks {
            defs: bit(a) | masks_in(masks, c).defs,
            ..Masks::NOTHING
        },
        46 => Masks {
            defs: bit(a) | masks_in(masks, b).defs,
            ..Masks::NOTHING
        },
        49..=51 => Masks {
            defs: masks_in(masks, a).defs,
            ..Masks::NOTHING
        },
        52 => Masks {
            defs: masks_in(masks, b).defs,
            ..Masks::NOTHING
        },
        53 => Masks {
            leads: bit(a),
            ..Masks::NOTHING
        },
        54 | 57 => Masks {
            uses: 0,
            ..joined(masks, a, b)
        },
        55 => Masks {
            uses: 0,
            ..masks_in(masks, a)
        },
        56 | 59 => Masks {
            uses: 0,
            ..masks_in(masks, b)
        },
        58 => {
            let pattern = masks_in(masks, a);
            let rest = joined(masks, b, c);
            Masks {
                uses: joined(masks, a, c).uses,
                defs: pattern.defs | rest.defs,
                ..rest
            }
        }
        60 => Masks {
            defs: joined(masks, a, b).defs,
            leads: masks_in(masks, b).leads,
            uses: 0,
        },
        _ => Masks::NOTHING,
    }
}

// The masks of every row, lowest first, since rows name only lower rows.
fn fill_rows(x: &Automaton, masks: &mut [Masks])
    requires { Fit x.now.image.now x.now.trailer masks.old }
    ensures { Filled (tables x.now) (row_count x.now.trailer) masks.new }
{
    for r in 0..masks.len() {
        masks[r] = masks_of(x.fields(r as u16), masks);
    }
}

// The masks of every row, into the slice's first entries. What is lent on ends where the rows end, so that none is past it.
pub fn fill(x: &Automaton, masks: &mut [Masks])
    requires { Lent x.now.image.now x.now.trailer masks.old }
    ensures { Filled (tables x.now) (row_count x.now.trailer) masks.new }
{
    let n = x.row_count() as usize;
    fill_rows(x, &mut masks[..n]);
}

// The mask of the parameters, from the last variable down, as its definition goes.
pub fn parameters(x: &Automaton) -> u64
    requires { Formed x.now.image.now x.now.trailer }
    ensures { result ≡ parameters_of (tables x.now).variables }
{
    let mut m: u64 = 0;
    for v in (0..x.variable_count()).rev() {
        m = m * 2 + x.parameter(v) as u64;
    }
    m
}
