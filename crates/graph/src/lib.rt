// The graph of an image for Graphviz: a box for each state with its action, an arrow for each jump.
#![tactic(auto)]

ghost use Rattle.std.specs.Prelude.{◌≡◌, true, ◌<◌};
ghost use Rattle.model.specs.Image.{state_count};
ghost use Rattle.image.specs.Located.{tables, Located, StateOf};
ghost use Rattle.text.specs.Emit.{page, Emitted};
ghost use Rattle.text.specs.Written.{Written};
ghost use Rattle.notation.specs.Texts.{each};
ghost use Rattle.notation.specs.Whole.{pointless};
ghost use Rattle.listing.specs.Gave.{Gave};
ghost use Rattle.graph.specs.Ways.{nowhere, either, reached, with_gate, spoken, parts_of, after_leaf, enters, leaves, gate_line, gate_text, quiet_text, label_text, arrow_text, state_arrows, graph_text, refused_text, drawn};
ghost use Rattle.graph.specs.Walked.{Walked};

use image::{Automaton, trailer};
use masks::{bit, inside};
use model::{Fields, Image, Refusal};
use notation::lines::{
    ARROW, BOX, GRAPH, GRAPH_END, LABEL_END, REFUSED_BOX, SPOKEN_GATE, SPOKEN_TAU,
};
use notation::tables::put_table;
use notation::whole::{pointing, put_refusal, put_said};
use notation::{Style, Table, row_fields};
use ntif::check;
use text::Page;

// What can have been said on the ways that lead to a row: on these gates; or nothing.
#[derive(Clone, Copy)]
pub struct Said {
    pub gates: u64,
    pub quiet: bool,
}

// How a row's parts are gone through: it has none, one after the other, one or the other, again and again.
#[derive(Clone, Copy)]
pub enum Order {
    Leaf,
    InTurn,
    Either,
    Again,
}

// The parts of a row, and how they are gone through.
#[derive(Clone, Copy)]
pub struct Parts {
    pub first: u16,
    pub second: u16,
    pub order: Order,
}

fn plain_style() -> Style
    ensures { result ≡ pointless true }
{
    Style {
        place: Image::NONE,
        state: Image::NONE,
        graph: true,
    }
}

// Where no way leads.
fn nowhere() -> Said
    ensures { result ≡ nowhere }
{
    Said {
        gates: 0,
        quiet: false,
    }
}

fn either(a: Said, b: Said) -> Said
    ensures { result ≡ either a b }
{
    Said {
        gates: a.gates | b.gates,
        quiet: a.quiet | b.quiet,
    }
}

fn reached(m: Said) -> bool
    ensures { result ≡ reached m }
{
    if m.quiet {
        return true;
    }
    m.gates != 0
}

fn with_gate(gates: u64, g: u16) -> u64
    ensures { result ≡ with_gate gates g }
{
    if g < 64 {
        return gates | bit(g);
    }
    gates
}

fn spoken(m: Said, g: u16) -> Said
    ensures { result ≡ spoken m g }
{
    if reached(m) {
        let gates = with_gate(m.gates, g);
        return Said {
            gates,
            quiet: false,
        };
    }
    nowhere()
}

fn parts_at(first: u16, second: u16, order: Order) -> Parts
    ensures { result ≡ record { first = first; second = second; order = order } }
{
    Parts {
        first,
        second,
        order,
    }
}

fn parts_of(w: Fields) -> Parts
    ensures { result ≡ parts_of w }
{
    let code = w.code;
    match code {
        54 => parts_at(w.a, w.b, Order::InTurn),
        55 => parts_at(w.a, Image::NONE, Order::Either),
        56 => parts_at(w.b, Image::NONE, Order::Either),
        57 => parts_at(w.a, w.b, Order::Either),
        58 => parts_at(w.b, w.c, Order::Either),
        59 => parts_at(w.b, Image::NONE, Order::Again),
        60 => parts_at(w.b, Image::NONE, Order::Again),
        _ => parts_at(Image::NONE, Image::NONE, Order::Leaf),
    }
}

fn after_leaf(w: Fields, m: Said) -> Said
    ensures { result ≡ after_leaf w m }
{
    if w.code == 52 {
        return spoken(m, w.a);
    }
    if w.code == 53 {
        return nowhere();
    }
    m
}

// What is said where the second part is entered, after the first.
fn enters(order: Order, m: Said, a: Said) -> Said
    ensures { result ≡ enters order m a }
{
    match order {
        Order::Leaf => m,
        Order::InTurn => a,
        Order::Either => m,
        Order::Again => m,
    }
}

fn leaves(order: Order, w: Fields, m: Said, a: Said, b: Said) -> Said
    ensures { result ≡ leaves order w m a b }
{
    match order {
        Order::Leaf => after_leaf(w, m),
        Order::InTurn => b,
        Order::Either => either(a, b),
        Order::Again => either(m, a),
    }
}

fn gate_line(g: u16) -> u32
    ensures { result ≡ gate_line g }
{
    if g == 0 {
        return SPOKEN_TAU;
    }
    SPOKEN_GATE
}

fn put_gate(gates: u64, g: u16, page: &mut Page<'_>)
    requires { g < 64 }
    ensures { Written (gate_text gates g) page.old page.new }
{
    let one = bit(g);
    if inside(one, gates) {
        put_said(plain_style(), gate_line(g), g, 0, 0, 0, page);
    }
}

fn put_gates(gates: u64, page: &mut Page<'_>)
    ensures { Written (each (gate_text gates) 64) page.old page.new }
{
    for g in 0..64 {
        put_gate(gates, g, page);
    }
}

fn put_quiet(quiet: bool, page: &mut Page<'_>)
    ensures { Written (quiet_text quiet) page.old page.new }
{
    if quiet {
        page.emit(b"quiet");
    }
}

// The gates of a label, or that nothing is said.
fn put_label(m: Said, page: &mut Page<'_>)
    ensures { Written (label_text m) page.old page.new }
{
    if reached(m) {
        put_quiet(m.quiet, page);
        put_gates(m.gates, page);
    } else {
        page.emit(b"dead");
    }
}

// The arrow of a jump.
fn put_arrow(q: u16, w: Fields, m: Said, page: &mut Page<'_>)
    ensures { Written (arrow_text q w m) page.old page.new }
{
    if w.code == 53 {
        let st = plain_style();
        put_said(st, ARROW, q, w.a, 0, 0, page);
        put_label(m, page);
        put_said(st, LABEL_END, 0, 0, 0, 0, page);
    }
}

// The arrows of a row in the action of state q, entered with m said, and what is said after the row.
fn walk_row(x: &Automaton, q: u16, r: u16, m: Said, left: u16, page: &mut Page<'_>) -> Said
    requires { Located x.now.image.now x.now.trailer }
    ensures { Walked left (tables x.now) q r m page.old page.new result }
{
    if left == 0 {
        return nowhere();
    }
    if r == Image::NONE {
        return nowhere();
    }
    let w = row_fields(x, r);
    let p = parts_of(w);
    put_arrow(q, w, m, page);
    let one = walk_row(x, q, p.first, m, left - 1, page);
    let n = enters(p.order, m, one);
    let two = walk_row(x, q, p.second, n, left - 1, page);
    leaves(p.order, w, m, one, two)
}

fn put_state_arrows(x: &Automaton, q: u16, page: &mut Page<'_>)
    requires { StateOf x.now.image.now x.now.trailer q }
    ensures { Written (state_arrows (tables x.now) q) page.old page.new }
{
    let row = x.state_row(q);
    let m = Said {
        gates: 0,
        quiet: true,
    };
    walk_row(x, q, row, m, Image::ROWS, page);
}

fn put_arrows(x: &Automaton, page: &mut Page<'_>)
    requires { Located x.now.image.now x.now.trailer }
    ensures { Written (each (state_arrows (tables x.now)) (state_count x.now.trailer)) page.old page.new }
{
    let n = (x.trailer.rows - x.trailer.states) / 2;
    for q in 0..n {
        put_state_arrows(x, q, page);
    }
}

fn put_graph(x: &Automaton, st: Style, page: &mut Page<'_>)
    requires { Located x.now.image.now x.now.trailer }
    ensures { Written (graph_text (tables x.now) x.now.trailer st) page.old page.new }
{
    put_said(st, GRAPH, 0, 0, 0, 0, page);
    put_table(x, st, Table::States(BOX), page);
    put_arrows(x, page);
    put_said(st, GRAPH_END, 0, 0, 0, 0, page);
}

fn put_refused(y: Refusal, st: Style, page: &mut Page<'_>)
    ensures { Written (refused_text st y) page.old page.new }
{
    put_said(st, GRAPH, 0, 0, 0, 0, page);
    put_said(st, REFUSED_BOX, 0, 0, 0, 0, page);
    put_refusal(y, st, page);
    put_said(st, LABEL_END, 0, 0, 0, 0, page);
    put_said(st, GRAPH_END, 0, 0, 0, 0, page);
}

// The graph, by what check gave with room for 64 sets.
fn put_drawn(image: &[u8], v: Result<(), Refusal>, sets: &[u64], page: &mut Page<'_>)
    requires { Gave image.now v sets.now }
    ensures { Written (drawn image.now) page.old page.new }
{
    match v {
        Err(y) => {
            let n = y.number();
            let p = y.place();
            let st = pointing(n, p, true);
            if n < 8 {
                return put_refused(y, st, page);
            }
            let x = Automaton {
                image,
                trailer: trailer(image),
            };
            put_graph(&x, st, page);
        }
        Ok(()) => {
            let x = Automaton {
                image,
                trailer: trailer(image),
            };
            put_graph(&x, plain_style(), page);
        }
    }
}

// An image drawn, as far as the text has room.
pub fn draw(image: &[u8], text: &mut [u8]) -> usize
    ensures { Emitted (drawn image.now) (page 0 text.old) (page result text.new) }
{
    let mut sets = [0u64; Image::STATES as usize];
    let v = check(image, &mut sets);
    let mut page = Page::new(text);
    put_drawn(image, v, &sets, &mut page);
    page.end
}
