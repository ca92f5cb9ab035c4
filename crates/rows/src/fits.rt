// Number 5: whether a row's fields are as its line says.
ghost use Rattle.std.specs.Prelude.{◌≡◌, ◌&&◌, ◌||◌, ℕ, ◌/◌, ◌≤◌, ◌<◌};
ghost use lib.{Dec.eqb, Dec.ltb, ListN.length};
ghost use Rattle.model.specs.Answers.{lowest_failing};
ghost use Rattle.model.specs.Image.{none, int, size_of};
ghost use Rattle.model.specs.Rows.{Kind, shape_of, number_of_kind, next_of, names, list_fits, formed};
ghost use Rattle.image.specs.Located.{tables, Located};
ghost use Rattle.rows.specs.Lines.{Tells};
ghost use Rattle.rows.specs.Judged.{Reading, Below, Lined, line_fits};

use crate::lines::{CODES, Line, NEXT, UNKNOWN, kind, line_of};
use image::Automaton;
use model::{Fields, Image};

// An upper literal is below it.
const UPPER: u16 = 0x7FFF;

// A row of kind k below row r.
pub fn names(x: &Automaton, lines: &[u32; CODES], r: u16, k: u32, n: u16) -> bool
    requires { Below x.now.image.now lines.now x.now.trailer r }
    ensures { (j : Kind) → k ≡ number_of_kind j → result ≡ names (tables x.now) r j n }
{
    n < r && kind(x, lines, n) == k
}

// The row that a row's next field names.
fn next_of(x: &Automaton, lines: &[u32; CODES], r: u16) -> u16
    requires { Reading x.now.image.now lines.now x.now.trailer }
    ensures { result ≡ next_of (tables x.now) r }
{
    if x.row_count() <= r {
        return Image::NONE;
    }
    let w = x.fields(r);
    let l = line_of(lines, w.code);
    if l.b == NEXT {
        w.b
    } else if l.c == NEXT {
        w.c
    } else {
        Image::NONE
    }
}

// A list of so many rows at most, from row n on.
fn list_fits(x: &Automaton, lines: &[u32; CODES], most: u16, n: u16) -> bool
    requires { Reading x.now.image.now lines.now x.now.trailer }
    ensures { result ≡ list_fits (tables x.now) most n }
{
    let mut at = n;
    for _ in 0..most {
        if at == Image::NONE {
            return true;
        }
        at = next_of(x, lines, at);
    }
    at == Image::NONE
}

// A row of kind k below row r, or none.
fn names_or_none(x: &Automaton, lines: &[u32; CODES], r: u16, k: u32, n: u16) -> bool
    requires { Below x.now.image.now lines.now x.now.trailer r }
    ensures { (j : Kind) → k ≡ number_of_kind j → result ≡ (eqb n none || names (tables x.now) r j n) }
{
    (n == Image::NONE) | names(x, lines, r, k, n)
}

// A row of kind k below row r, the first of a list of so many at most.
fn names_list(x: &Automaton, lines: &[u32; CODES], r: u16, k: u32, most: u16, n: u16) -> bool
    requires { Below x.now.image.now lines.now x.now.trailer r }
    ensures { (j : Kind) → k ≡ number_of_kind j → result ≡ (names (tables x.now) r j n && list_fits (tables x.now) most n) }
{
    names(x, lines, r, k, n) & list_fits(x, lines, most, n)
}

// The same, or none.
fn names_list_or_none(
    x: &Automaton,
    lines: &[u32; CODES],
    r: u16,
    k: u32,
    most: u16,
    n: u16,
) -> bool
    requires { Below x.now.image.now lines.now x.now.trailer r }
    ensures { (j : Kind) → k ≡ number_of_kind j → result ≡ (eqb n none || (names (tables x.now) r j n && list_fits (tables x.now) most n)) }
{
    (n == Image::NONE) | names_list(x, lines, r, k, most, n)
}

// A value of type t.
fn value_fits(x: &Automaton, t: u16, n: u16) -> bool
    requires { Located x.now.image.now x.now.trailer }
    ensures { result ≡ (eqb t int || ltb n (size_of (tables x.now) t)) }
{
    t == Image::INT || (t < x.type_count() && n < x.size(t))
}

// The forms that name no row, with their codes.
fn plain_fits(x: &Automaton, w: Fields, l: Line) -> bool
    requires { Located x.now.image.now x.now.trailer × Tells l (shape_of w.code) × (l.form / 16 ≡ 0) }
    ensures { (r : ℕ) → result ≡ line_fits (tables x.now) r w }
{
    let f = l.form % 16;
    match f {
        // 48
        0 => (w.a == 0) & (w.b == 0) & (w.c == 0),
        // 1, 33
        1 => (w.a < x.variable_count()) & (w.b == 0) & (w.c == 0),
        // 2, 34
        2 => (w.a < x.type_count()) & value_fits(x, w.a, w.b) & (w.c == 0),
        // 32
        3 => (w.a < x.type_count()) & (w.b == 0) & (w.c == 0),
        // 47
        4 => (w.a < x.variable_count()) & (w.c != UPPER),
        // 53
        _ => (w.a < x.state_count()) & (w.b == 0) & (w.c == 0),
    }
}

// The forms that name rows and no list; a next row is of the kind of its own row.
fn naming_fits(x: &Automaton, lines: &[u32; CODES], r: u16, w: Fields, l: Line) -> bool
    requires { Lined x.now.image.now lines.now x.now.trailer r w l × (l.form / 16 ≡ 1) }
    ensures { result ≡ line_fits (tables x.now) r w }
{
    let f = l.form % 16;
    match f {
        // 16, 19
        0 => names(x, lines, r, l.a, w.a) & (w.b == 0) & (w.c == 0),
        // 17, 18, 20 to 27, 35, 54, 59, 60
        1 => names(x, lines, r, l.a, w.a) & names(x, lines, r, l.b, w.b) & (w.c == 0),
        // 40, 41, 57
        2 => names(x, lines, r, l.a, w.a) & names_or_none(x, lines, r, l.kind, w.b) & (w.c == 0),
        // 46
        3 => (w.a < x.variable_count()) & names_or_none(x, lines, r, l.kind, w.b) & (w.c == 0),
        // 45
        4 => (w.a < x.variable_count())
            & (w.b < x.type_count())
            & names_or_none(x, lines, r, l.kind, w.c),
        // 44
        5 => (w.a < x.variable_count())
            & names(x, lines, r, l.b, w.b)
            & names_or_none(x, lines, r, l.kind, w.c),
        // 58
        _ => names(x, lines, r, l.a, w.a)
            & names(x, lines, r, l.b, w.b)
            & names_or_none(x, lines, r, l.kind, w.c),
    }
}

// The forms that name lists.
fn listing_fits(x: &Automaton, lines: &[u32; CODES], r: u16, w: Fields, l: Line) -> bool
    requires { Lined x.now.image.now lines.now x.now.trailer r w l × (2 ≤ l.form / 16) }
    ensures { result ≡ line_fits (tables x.now) r w }
{
    let f = l.form % 16;
    match f {
        // 49, 51
        0 => names_list(x, lines, r, l.a, Image::VECTOR, w.a) & (w.b == 0) & (w.c == 0),
        // 50
        1 => names_list(x, lines, r, l.a, Image::VECTOR, w.a)
            & names_or_none(x, lines, r, l.b, w.b)
            & (w.c == 0),
        // 52
        2 => (w.a < x.trailer.gates)
            & names_list_or_none(x, lines, r, l.b, Image::VECTOR, w.b)
            & (w.c == 0),
        // 55
        3 => names_list_or_none(x, lines, r, l.a, Image::BRANCHES, w.a) & (w.b == 0) & (w.c == 0),
        // 56
        _ => names(x, lines, r, l.a, w.a)
            & names_list_or_none(x, lines, r, l.b, Image::BRANCHES, w.b)
            & (w.c == 0),
    }
}

// A row with a code of the table, and fields as its line says.
fn formed(x: &Automaton, lines: &[u32; CODES], r: u16) -> bool
    requires { Reading x.now.image.now lines.now x.now.trailer × (r < length (tables x.now).rows) }
    ensures { result ≡ formed (tables x.now) r }
{
    let w = x.fields(r);
    let l = line_of(lines, w.code);
    if l.kind == UNKNOWN {
        return false;
    }
    let g = l.form / 16;
    match g {
        0 => plain_fits(x, w, l),
        1 => naming_fits(x, lines, r, w, l),
        _ => listing_fits(x, lines, r, w, l),
    }
}

// The lowest of n rows that isn't formed.
pub fn malformed(x: &Automaton, lines: &[u32; CODES], n: u16) -> Option<u16>
    requires { Below x.now.image.now lines.now x.now.trailer n }
    ensures { result ≡ lowest_failing (formed (tables x.now)) n }
{
    (0..n).find(|r| !formed(x, lines, *r))
}
