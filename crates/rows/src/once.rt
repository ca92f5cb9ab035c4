// Number 7: each row is named exactly once. The namings of each row are counted, up to 2.
ghost use Rattle.std.specs.Prelude.{◌≡◌, [], ◌∷◌, ◌+◌, ◌≤◌, min, length};
ghost use Rattle.model.specs.Answers.{lowest_failing};
ghost use Rattle.model.specs.Image.{none};
ghost use Rattle.model.specs.Rows.{Field, named_by, named_in, named_by_rows, named_once};
ghost use Rattle.image.specs.Located.{tables, Located};
ghost use Rattle.rows.specs.Lines.{digit, Table};
ghost use Rattle.rows.specs.Judged.{Reading};
ghost use Rattle.rows.specs.Counts.{Counted, Scratch, once_in};

use crate::lines::{CODES, PLAIN, line_of};
use image::Automaton;
use model::{Fields, Image};

// One more, up to 2.
fn more(c: u8) -> u8
    ensures { result ≡ min 2 (c + 1) }
{
    if c < 2 { c + 1 } else { 2 }
}

// One naming more of n, where it is a row.
fn count(counts: &mut [u8], n: u16)
    ensures { Counted counts.old counts.new (n ∷ []) }
{
    let at = n as usize;
    if at < counts.len() {
        counts[at] = more(counts[at]);
    }
}

// The naming by a field with digit d, if it names rows.
fn count_field(counts: &mut [u8], d: u32, n: u16)
    requires { length counts.old ≤ none }
    ensures { (f : Field) → d ≡ digit f → Counted counts.old counts.new (named_by f n) }
{
    if d != PLAIN {
        count(counts, n);
    }
}

// The namings by the fields of a row.
fn count_row(counts: &mut [u8], lines: &[u32; CODES], w: Fields)
    requires { (length counts.old ≤ none) × Table lines.now }
    ensures { Counted counts.old counts.new (named_in w) }
{
    let l = line_of(lines, w.code);
    count_field(counts, l.a, w.a);
    count_field(counts, l.b, w.b);
    count_field(counts, l.c, w.c);
}

// The namings by all rows.
fn count_rows(counts: &mut [u8], x: &Automaton, lines: &[u32; CODES])
    requires { (length counts.old ≤ none) × Reading x.now.image.now lines.now x.now.trailer }
    ensures { Counted counts.old counts.new (named_by_rows (tables x.now).rows) }
{
    let n = x.row_count();
    for r in 0..n {
        count_row(counts, lines, x.fields(r));
    }
}

// The namings by all states.
fn count_states(counts: &mut [u8], x: &Automaton)
    requires { Located x.now.image.now x.now.trailer }
    ensures { Counted counts.old counts.new (tables x.now).states }
{
    let n = x.state_count();
    for q in 0..n {
        count(counts, x.state_row(q));
    }
}

// The lowest of n rows that isn't counted once.
fn not_one(counts: &[u8], n: u16) -> Option<u16>
    requires { n ≡ length counts.now }
    ensures { result ≡ lowest_failing (once_in counts.now) n }
{
    (0..n).find(|r| counts[*r as usize] != 1)
}

// The lowest of n rows that isn't named once, by counts that are 0.
fn not_once_by(counts: &mut [u8], x: &Automaton, lines: &[u32; CODES], n: u16) -> Option<u16>
    requires { Reading x.now.image.now lines.now x.now.trailer × Scratch counts.old n }
    ensures { result ≡ lowest_failing (named_once (tables x.now)) n }
{
    count_rows(counts, x, lines);
    count_states(counts, x);
    count(counts, x.trailer.condition);
    not_one(counts, n)
}

// The lowest of the n rows that isn't named once.
pub fn not_once(x: &Automaton, lines: &[u32; CODES], n: u16) -> Option<u16>
    requires { Reading x.now.image.now lines.now x.now.trailer × (n ≡ length (tables x.now).rows) }
    ensures { result ≡ lowest_failing (named_once (tables x.now)) n }
{
    let mut counts = [0u8; Image::ROWS as usize];
    let end = n as usize;
    not_once_by(&mut counts[..end], x, lines, n)
}
