// Images written for people, in the report's notation.
#![tactic(auto)]

ghost use Rattle.std.specs.Prelude.{◌≡◌, ◌<◌};
ghost use Rattle.model.specs.Image.{fields_of};
ghost use Rattle.image.specs.Located.{tables, Located};
ghost use Rattle.text.specs.Emit.{page, Emitted};
ghost use Rattle.text.specs.Written.{Written};
ghost use Rattle.notation.specs.Table.{notation};
ghost use Rattle.notation.specs.Texts.{line_from, filled, row_text};
ghost use Rattle.notation.specs.Whole.{explained};
ghost use Rattle.listing.specs.Gave.{Gave};

use image::{Automaton, trailer};
use marks::{aim, line, put_lead, put_plain, row_line};
use model::{Fields, Image, Refusal};
use ntif::check;
use text::Page;
use whole::{pointing, put_accepted, put_listing, put_refusal, put_shown};

pub mod lines;
mod marks;
pub mod tables;
pub mod whole;

// The words before a row.
#[derive(Clone, Copy)]
pub enum Lead {
    Nothing,
    Comma,
    Where,
}

// A row to be written: after which words, how many lines of the notation on, how deep.
#[derive(Clone, Copy)]
pub struct Aim {
    pub row: u16,
    pub lead: Lead,
    pub shift: u16,
    pub depth: u16,
}

// How an image is written: the row and the state that are pointed at, or none; whether as the text of a graph's node.
#[derive(Clone, Copy)]
pub struct Style {
    pub place: u16,
    pub state: u16,
    pub graph: bool,
}

// A table to be written; the states, each as one line of the notation.
#[derive(Clone, Copy)]
pub enum Table {
    Types,
    Variables,
    Rows,
    States(u32),
}

// A line of the notation, and the fields that fill it in.
#[derive(Clone, Copy)]
pub struct Filling {
    pub line: u32,
    pub fields: Fields,
}

// The fields of a row; zeros where there is no such row.
pub fn row_fields(x: &Automaton, r: u16) -> Fields
    requires { Located x.now.image.now x.now.trailer }
    ensures { result ≡ fields_of (tables x.now) r }
{
    let n = x.row_count();
    if r < n {
        return x.fields(r);
    }
    Fields {
        code: 0,
        a: 0,
        b: 0,
        c: 0,
    }
}

// A row's text, while rows are left to be gone through.
#[cycle(put_filled_put_row)]
fn put_row(x: &Automaton, st: Style, a: Aim, left: u16, page: &mut Page<'_>)
    requires { 0 < left → Located x.now.image.now x.now.trailer }
    ensures { Written (row_text left (tables x.now) st a) page.old page.new }
{
    if left == 0 {
        return;
    }
    if a.row == Image::NONE {
        return;
    }
    let w = row_fields(x, a.row);
    let k = row_line(w) as u32 + a.shift as u32;
    put_lead(page, a.lead);
    put_filled(x, st, a, w, k, left - 1, page);
}

// A line of the notation, filled in.
#[cycle(put_filled_put_row)]
pub(crate) fn put_filled(
    x: &Automaton,
    st: Style,
    a: Aim,
    w: Fields,
    k: u32,
    left: u16,
    page: &mut Page<'_>,
)
    requires { 0 < left → Located x.now.image.now x.now.trailer }
    ensures { Written (filled (λ t. row_text left (tables x.now) st t) st a w (line_from k notation)) page.old page.new }
{
    let marks = line(k);
    for b in marks {
        put_plain(page, st, a, w, *b);
        put_row(x, st, aim(a, w, *b), left, page);
    }
}

// What is written of an image, by what check gave with room for 64 sets.
fn put_explained(image: &[u8], v: Result<(), Refusal>, sets: &[u64], page: &mut Page<'_>)
    requires { Gave image.now v sets.now }
    ensures { Written (explained image.now) page.old page.new }
{
    match v {
        Err(y) => {
            let n = y.number();
            let p = y.place();
            let st = pointing(n, p, false);
            put_shown(image, st, n, page);
            put_refusal(y, st, page);
        }
        Ok(()) => {
            let x = Automaton {
                image,
                trailer: trailer(image),
            };
            let st = Style {
                place: Image::NONE,
                state: Image::NONE,
                graph: false,
            };
            put_listing(&x, st, page);
            put_accepted(&x, st, sets, page);
        }
    }
}

// An image explained, as far as the text has room.
pub fn explain(image: &[u8], text: &mut [u8]) -> usize
    ensures { Emitted (explained image.now) (page 0 text.old) (page result text.new) }
{
    let mut sets = [0u64; Image::STATES as usize];
    let v = check(image, &mut sets);
    let mut page = Page::new(text);
    put_explained(image, v, &sets, &mut page);
    page.end
}
