// The parts of what is written of an image.
ghost use Rattle.std.specs.Prelude.{◌≡◌, ◌<◌, ◌≤◌, min, length};
ghost use Rattle.image.specs.Located.{tables, Located};
ghost use Rattle.text.specs.Written.{Written};
ghost use Rattle.notation.specs.Texts.{each};
ghost use Rattle.notation.specs.Whole.{fields_with, words_text, length_text, trailer_text, tables_text, roots_text, raw_text, listing_text, member_text, set_text, accepted_text, refusal_text, row_place, state_place, pointing, shown_text};
ghost use Rattle.notation.specs.Inside.{Shown};

use crate::lines::{
    ACCEPTED, CONDITION, CONDITION_ROW, COUNTS, GATES, IMAGE, LENGTH, REFUSED, ROWS, SET, SET_END,
    STARTS, STATE, STATE_ROW, STATES, TYPES, VARIABLES,
};
use crate::tables::{put_line, put_table, put_words};
use crate::{Style, Table};
use image::{Automaton, trailer};
use masks::{bit, inside};
use model::{Fields, Image, Refusal};
use text::Page;

// The least refusal of an image whose rows are trees: each is named once.
const TREES: u16 = 8;

// A line without rows, by its fields.
pub fn put_said(st: Style, k: u32, a: u16, b: u16, c: u16, r: u16, page: &mut Page<'_>)
    ensures { Written (words_text st k (fields_with a b c) r) page.old page.new }
{
    let w = Fields { code: 0, a, b, c };
    put_words(st, k, w, r, page);
}

fn short_length(image: &[u8]) -> u16
    ensures { result ≡ min (length image.now) 0xFFFF }
{
    if image.len() < 0xFFFF {
        return image.len() as u16;
    }
    0xFFFF
}

fn put_length(image: &[u8], st: Style, page: &mut Page<'_>)
    ensures { Written (length_text st image.now) page.old page.new }
{
    let n = short_length(image);
    put_said(st, IMAGE, n, 0, 0, 0, page);
}

fn put_trailer(i: Image, st: Style, page: &mut Page<'_>)
    ensures { Written (trailer_text st i) page.old page.new }
{
    put_said(st, STARTS, i.types, i.variables, i.states, 0, page);
    put_said(st, COUNTS, i.rows, i.gates, i.condition, 0, page);
    put_said(st, LENGTH, i.length, 0, 0, 0, page);
}

fn put_tables(x: &Automaton, st: Style, page: &mut Page<'_>)
    requires { Located x.now.image.now x.now.trailer }
    ensures { Written (tables_text (tables x.now) x.now.trailer st) page.old page.new }
{
    put_trailer(x.trailer, st, page);
    put_said(st, TYPES, 0, 0, 0, 0, page);
    put_table(x, st, Table::Types, page);
    put_said(st, VARIABLES, 0, 0, 0, 0, page);
    put_table(x, st, Table::Variables, page);
    put_said(st, GATES, x.trailer.gates, 0, 0, 0, page);
}

fn put_roots(x: &Automaton, st: Style, page: &mut Page<'_>)
    requires { Located x.now.image.now x.now.trailer }
    ensures { Written (roots_text (tables x.now) x.now.trailer st) page.old page.new }
{
    put_said(st, STATES, 0, 0, 0, 0, page);
    put_table(x, st, Table::States(STATE_ROW), page);
    let states = (x.trailer.rows - x.trailer.states) / 2;
    put_said(st, CONDITION_ROW, x.trailer.condition, 0, 0, states, page);
}

fn put_raw(x: &Automaton, st: Style, page: &mut Page<'_>)
    requires { Located x.now.image.now x.now.trailer }
    ensures { Written (raw_text (tables x.now) x.now.trailer st) page.old page.new }
{
    put_tables(x, st, page);
    put_roots(x, st, page);
    put_said(st, ROWS, 0, 0, 0, 0, page);
    put_table(x, st, Table::Rows, page);
}

pub(crate) fn put_listing(x: &Automaton, st: Style, page: &mut Page<'_>)
    requires { Located x.now.image.now x.now.trailer }
    ensures { Written (listing_text (tables x.now) x.now.trailer st) page.old page.new }
{
    put_tables(x, st, page);
    let w = Fields {
        code: 0,
        a: x.trailer.condition,
        b: 0,
        c: 0,
    };
    put_line(x, st, CONDITION, w, 0, page);
    put_table(x, st, Table::States(STATE), page);
}

fn put_member(mask: u64, v: u16, page: &mut Page<'_>)
    requires { v < 64 }
    ensures { Written (member_text mask v) page.old page.new }
{
    let one = bit(v);
    if inside(one, mask) {
        page.emit(b" V");
        page.emit_number(v);
    }
}

fn put_members(mask: u64, n: u16, page: &mut Page<'_>)
    requires { n ≤ 64 }
    ensures { Written (each (member_text mask) n) page.old page.new }
{
    for v in 0..n {
        put_member(mask, v, page);
    }
}

fn put_set(st: Style, n: u16, sets: &[u64], q: u16, page: &mut Page<'_>)
    requires { (n ≤ 64) × (q < length sets.now) }
    ensures { Written (set_text st n sets.now q) page.old page.new }
{
    let mask = sets[q as usize];
    put_said(st, SET, q, 0, 0, 0, page);
    put_members(mask, n, page);
    put_said(st, SET_END, 0, 0, 0, 0, page);
}

fn put_sets(st: Style, n: u16, sets: &[u64], states: u16, page: &mut Page<'_>)
    requires { (n ≤ 64) × (states ≤ length sets.now) }
    ensures { Written (each (set_text st n sets.now) states) page.old page.new }
{
    for q in 0..states {
        put_set(st, n, sets, q, page);
    }
}

// An accepted image's sets.
pub(crate) fn put_accepted(x: &Automaton, st: Style, sets: &[u64], page: &mut Page<'_>)
    requires { Located x.now.image.now x.now.trailer × (64 ≤ length sets.now) }
    ensures { Written (accepted_text st x.now.trailer sets.now) page.old page.new }
{
    let variables = (x.trailer.states - x.trailer.variables) / 4;
    let states = (x.trailer.rows - x.trailer.states) / 2;
    put_said(st, ACCEPTED, 0, 0, 0, 0, page);
    put_sets(st, variables, sets, states, page);
}

pub fn put_refusal(y: Refusal, st: Style, page: &mut Page<'_>)
    ensures { Written (refusal_text st y) page.old page.new }
{
    let n = y.number();
    let p = y.place();
    put_said(st, REFUSED + n as u32, p, n, 0, 0, page);
}

fn row_place(n: u16, p: u16) -> u16
    ensures { result ≡ row_place n p }
{
    if n < 5 {
        return Image::NONE;
    }
    if n == 6 {
        return Image::NONE;
    }
    if n < 10 {
        return p;
    }
    Image::NONE
}

fn state_place(n: u16, p: u16) -> u16
    ensures { result ≡ state_place n p }
{
    if n == 6 {
        return p;
    }
    if n < 11 {
        return Image::NONE;
    }
    p
}

// The style that points at a refusal's place.
pub fn pointing(n: u16, p: u16, graph: bool) -> Style
    ensures { result ≡ pointing n p graph }
{
    let place = row_place(n, p);
    let state = state_place(n, p);
    Style {
        place,
        state,
        graph,
    }
}

// As much of a refused image as is sound to print, by the refusal's number.
pub(crate) fn put_shown(image: &[u8], st: Style, n: u16, page: &mut Page<'_>)
    requires { Shown image.now n }
    ensures { Written (shown_text image.now st n) page.old page.new }
{
    if n < 3 {
        return put_length(image, st, page);
    }
    let x = Automaton {
        image,
        trailer: trailer(image),
    };
    if n < 4 {
        put_trailer(x.trailer, st, page);
    } else if n < 5 {
        put_tables(&x, st, page);
    } else if n < TREES {
        put_raw(&x, st, page);
    } else {
        put_listing(&x, st, page);
    }
}
