// What the marks of the notation stand for.
ghost use Rattle.std.specs.Prelude.{◌≡◌, [], ◌++◌, get_or, map};
ghost use Rattle.text.specs.Written.{Written};
ghost use Rattle.notation.specs.Texts.{line_of, blanks, padding, type_name, line_end, margin, pointer, line_start, plain_text, deeper, aim_of, lead_text, constant_line, gate_line, row_line};

use crate::lines::{COMMUNICATE, FALSE, INT, TAU, TRUE, VALUE};
use crate::{Aim, Lead, Style};
use model::{Fields, Image};
use text::Page;

// The lines of the notation.
const LINES: usize = 116;

// The notation (specs/Table.antt says what its lines are).
const NOTATION: [&str; LINES] = [
    "?",
    "PV0",
    "?",
    "?",
    "?",
    "?",
    "?",
    "?",
    "?",
    "?",
    "?",
    "?",
    "?",
    "?",
    "?",
    "?",
    "Pnot A",
    "P(A and B)",
    "P(A or B)",
    "P(-A)",
    "P(A + B)",
    "P(A - B)",
    "P(A * B)",
    "P(A quotient B)",
    "P(A remainder B)",
    "P(A = B)",
    "P(A < B)",
    "P(A <= B)",
    "?",
    "?",
    "?",
    "?",
    "Pany 5",
    "PV0",
    "?",
    "PA where B",
    "?",
    "?",
    "?",
    "?",
    " !AB",
    " ?AB",
    "?",
    "?",
    "BQ",
    "6Q",
    "?",
    "V0 in 3..4",
    "LnullE",
    "LN := AE",
    "LN := any AWE",
    "Lreset NE",
    "LG0BE",
    "Lto S0E",
    "AB",
    "LselectEAIendE",
    "Lcase A isEBIendE",
    "L[]EDB",
    "L| A ->EFC",
    "Lwhile A doEFIendE",
    "Lfor A doEFIendE",
    "?",
    "?",
    "?",
    "V0Q",
    "V0Q",
    "V0R",
    "Pfalse",
    "Ptrue",
    "P3",
    "PT0.1",
    "LtauBE",
    "image: 0 bytes readE",
    "starts: types 0, variables 1, states 2",
    ", rows 0Egates 1, condition in row 2",
    ", length 0E",
    "typesE",
    "  T0 bool, number of values 1E",
    "  T0 int, number of values 1E",
    "  T0, number of values 1E",
    "variablesE",
    "  V0 6E",
    "  V0 6, parameterE",
    "  V0 6, second field 2E",
    "gates: 0, G1 is tauE",
    "condition: AE",
    "Mcondition in row 0E",
    "statesE",
    "MS0 in row 1E",
    "Mstate S0EB",
    "rowsE",
    "L9 0 1 2E",
    "  S0 is entered with",
    "E",
    "acceptedE",
    "?",
    "refused 1: image length outside limitsE",
    "refused 1: mark or length field wrongE",
    "refused 1: starts, table sizes or counts wrongE",
    "refused 1: a type or variable entry wrongE",
    "refused 1: row malformed: code, field, range, child, list; row 0E",
    "refused 1: state's row not an action (condition: not an expression); place 0E",
    "refused 1: row not named exactly once; row 0E",
    "refused 1: typing; row 0E",
    "refused 1: binding; row 0E",
    "refused 1: sets buffer shorter than statesE",
    "refused 1: initialisation; state 0E",
    "refused 1: speech; state 0E",
    "digraph automaton {U  node [shape=box, fontname=monospace]U",
    "  S0 [label=\"Mstate S0EB\"]U",
    "  S0 -> S1 [label=\"",
    "\"]U",
    "}U",
    "  refused [label=\"",
    " tau",
    " G0",
];

// Text k of a table; past its end nothing.
fn text_at(texts: &[&'static str], k: u32) -> &'static [u8]
    ensures { result.now ≡ get_or (map (λ t. t.now) texts.now) k [] }
{
    if (k as usize) < texts.len() {
        return texts[k as usize].as_bytes();
    }
    b""
}

// Line k of the notation; past its end nothing.
pub(crate) fn line(k: u32) -> &'static [u8]
    ensures { result.now ≡ line_of k }
{
    text_at(&NOTATION, k)
}

fn put_blanks(page: &mut Page<'_>, n: u16)
    ensures { Written (blanks n) page.old page.new }
{
    for k in 0..n {
        page.emit_byte(b' ');
    }
}

fn padding(r: u16) -> u16
    ensures { result ≡ padding r }
{
    if r < 10 {
        return 5;
    }
    if r < 100 {
        return 4;
    }
    if r < 1000 {
        return 3;
    }
    2
}

fn put_type(page: &mut Page<'_>, t: u16)
    ensures { Written (type_name t) page.old page.new }
{
    if t == 0 {
        page.emit(b"bool");
    } else if t == 1 {
        page.emit(b"int");
    } else {
        page.emit_byte(b'T');
        page.emit_number(t);
    }
}

fn put_end(page: &mut Page<'_>, graph: bool)
    ensures { Written (line_end graph) page.old page.new }
{
    if graph {
        page.emit(b"\\l");
    } else {
        page.emit_byte(b'\n');
    }
}

fn put_margin(page: &mut Page<'_>, place: u16, row: u16)
    ensures { Written (margin place row) page.old page.new }
{
    if row == place {
        page.emit(b"> ");
    } else {
        page.emit(b"  ");
    }
}

fn put_pointer(page: &mut Page<'_>, place: u16, row: u16)
    ensures { Written (pointer place row) page.old page.new }
{
    if row == place {
        page.emit(b">>");
    }
}

fn put_start(page: &mut Page<'_>, st: Style, a: Aim)
    ensures { Written (line_start st a) page.old page.new }
{
    put_margin(page, st.place, a.row);
    page.emit_number(a.row);
    put_blanks(page, padding(a.row));
    put_blanks(page, a.depth);
}

fn put_indent(page: &mut Page<'_>, depth: u16)
    ensures { Written (blanks 8 ++ blanks depth) page.old page.new }
{
    put_blanks(page, 8);
    put_blanks(page, depth);
}

// The words before a row.
pub(crate) fn put_lead(page: &mut Page<'_>, lead: Lead)
    ensures { Written (lead_text lead) page.old page.new }
{
    match lead {
        Lead::Nothing => {}
        Lead::Comma => page.emit(b", "),
        Lead::Where => page.emit(b" where "),
    }
}

// What a byte of a row's line stands for, if that is no row.
pub(crate) fn put_plain(page: &mut Page<'_>, st: Style, a: Aim, w: Fields, b: u8)
    ensures { Written (plain_text st a w b) page.old page.new }
{
    match b {
        b'0' => page.emit_number(w.a),
        b'1' => page.emit_number(w.b),
        b'2' => page.emit_number(w.c),
        b'3' => page.emit_literal(w.b),
        b'4' => page.emit_literal(w.c),
        b'5' => put_type(page, w.a),
        b'6' => put_type(page, w.b),
        b'9' => page.emit_number(w.code),
        b'L' => put_start(page, st, a),
        b'I' => put_indent(page, a.depth),
        b'M' => put_margin(page, st.state, a.row),
        b'P' => put_pointer(page, st.place, a.row),
        b'E' => put_end(page, st.graph),
        b'U' => page.emit_byte(b'\n'),
        b'A' => {}
        b'B' => {}
        b'C' => {}
        b'D' => {}
        b'F' => {}
        b'N' => {}
        b'Q' => {}
        b'R' => {}
        b'W' => {}
        _ => page.emit_byte(b),
    }
}

fn deeper(d: u16) -> u16
    ensures { result ≡ deeper d }
{
    if d < 40 {
        return d + 2;
    }
    d
}

fn aim_at(row: u16, lead: Lead, shift: u16, depth: u16) -> Aim
    ensures { result ≡ record { row = row; lead = lead; shift = shift; depth = depth } }
{
    Aim {
        row,
        lead,
        shift,
        depth,
    }
}

// The row that a byte of a row's line stands for.
pub(crate) fn aim(a: Aim, w: Fields, b: u8) -> Aim
    ensures { result ≡ aim_of a w b }
{
    let deep = deeper(a.depth);
    match b {
        b'A' => aim_at(w.a, Lead::Nothing, 0, a.depth),
        b'B' => aim_at(w.b, Lead::Nothing, 0, a.depth),
        b'C' => aim_at(w.c, Lead::Nothing, 0, a.depth),
        b'D' => aim_at(w.a, Lead::Nothing, 0, deep),
        b'F' => aim_at(w.b, Lead::Nothing, 0, deep),
        b'N' => aim_at(w.a, Lead::Nothing, 20, a.depth),
        b'Q' => aim_at(w.c, Lead::Comma, a.shift, a.depth),
        b'R' => aim_at(w.b, Lead::Comma, a.shift, a.depth),
        b'W' => aim_at(w.b, Lead::Where, 0, a.depth),
        _ => aim_at(Image::NONE, Lead::Nothing, 0, 0),
    }
}

fn constant_line(t: u16, n: u16) -> u16
    ensures { result ≡ constant_line t n }
{
    if t == 1 {
        return INT;
    }
    if t != 0 {
        return VALUE;
    }
    if n == 0 {
        return FALSE;
    }
    TRUE
}

fn gate_line(g: u16) -> u16
    ensures { result ≡ gate_line g }
{
    if g == 0 {
        return TAU;
    }
    COMMUNICATE
}

// The line of a row.
pub(crate) fn row_line(w: Fields) -> u16
    ensures { result ≡ row_line w }
{
    let code = w.code;
    match code {
        2 => constant_line(w.a, w.b),
        34 => constant_line(w.a, w.b),
        52 => gate_line(w.a),
        _ => code,
    }
}
