// The lines of an image's tables.
ghost use Rattle.std.specs.Prelude.{◌≡◌, ◌<◌};
ghost use Rattle.model.specs.Limits.{limits};
ghost use Rattle.image.specs.Located.{tables, Located, RowOf, TypeOf, VariableOf, StateOf};
ghost use Rattle.text.specs.Written.{Written};
ghost use Rattle.notation.specs.Texts.{line_text};
ghost use Rattle.notation.specs.Whole.{words_text, type_line, variable_line, type_filling, variable_filling, state_filling, row_filling, filling_of, count_of, entry_text, table_text};
ghost use Rattle.notation.specs.Inside.{EntryOf};

use crate::lines::{BOOL_TYPE, DAMAGED, INT_TYPE, OTHER_TYPE, PARAMETER, ROW, VARIABLE};
use crate::{Aim, Filling, Lead, Style, Table, put_filled};
use image::Automaton;
use model::{Fields, Image};
use text::Page;

// A line without rows.
pub(crate) fn put_words(st: Style, k: u32, w: Fields, r: u16, page: &mut Page<'_>)
    ensures { Written (words_text st k w r) page.old page.new }
{
    let x = Automaton {
        image: b"",
        trailer: Image {
            types: 0,
            variables: 0,
            states: 0,
            rows: 0,
            gates: 0,
            condition: 0,
            length: 0,
        },
    };
    let a = Aim {
        row: r,
        lead: Lead::Nothing,
        shift: 0,
        depth: 0,
    };
    put_filled(&x, st, a, w, k, 0, page);
}

// A line, with the rows that it names.
pub(crate) fn put_line(x: &Automaton, st: Style, k: u32, w: Fields, r: u16, page: &mut Page<'_>)
    requires { Located x.now.image.now x.now.trailer }
    ensures { Written (line_text limits.rows (tables x.now) st k w r) page.old page.new }
{
    let a = Aim {
        row: r,
        lead: Lead::Nothing,
        shift: 0,
        depth: 0,
    };
    put_filled(x, st, a, w, k, Image::ROWS, page);
}

fn type_line(t: u16) -> u32
    ensures { result ≡ type_line t }
{
    if t == 0 {
        return BOOL_TYPE;
    }
    if t == 1 {
        return INT_TYPE;
    }
    OTHER_TYPE
}

fn variable_line(p: u16) -> u32
    ensures { result ≡ variable_line p }
{
    if p == 0 {
        return VARIABLE;
    }
    if p == 1 {
        return PARAMETER;
    }
    DAMAGED
}

fn filled_with(line: u32, a: u16, b: u16, c: u16) -> Filling
    ensures { result ≡ record { line = line; fields = record { code = 0; a = a; b = b; c = c } } }
{
    Filling {
        line,
        fields: Fields { code: 0, a, b, c },
    }
}

fn type_filling(x: &Automaton, t: u16) -> Filling
    requires { TypeOf x.now.image.now x.now.trailer t }
    ensures { result ≡ type_filling (tables x.now) t }
{
    let k = type_line(t);
    let n = x.size(t);
    filled_with(k, t, n, 0)
}

fn variable_filling(x: &Automaton, v: u16) -> Filling
    requires { VariableOf x.now.image.now x.now.trailer v }
    ensures { result ≡ variable_filling (tables x.now) v }
{
    let t = x.variable_type(v);
    let p = x.parameter(v);
    let k = variable_line(p);
    filled_with(k, v, t, p)
}

fn state_filling(x: &Automaton, k: u32, q: u16) -> Filling
    requires { StateOf x.now.image.now x.now.trailer q }
    ensures { result ≡ state_filling (tables x.now) k q }
{
    let row = x.state_row(q);
    filled_with(k, q, row, 0)
}

fn row_filling(x: &Automaton, r: u16) -> Filling
    requires { RowOf x.now.image.now x.now.trailer r }
    ensures { result ≡ row_filling (tables x.now) r }
{
    let w = x.fields(r);
    Filling {
        line: ROW,
        fields: w,
    }
}

// Entry q of a table.
fn filling_of(x: &Automaton, table: Table, q: u16) -> Filling
    requires { EntryOf x.now.image.now x.now.trailer table q }
    ensures { result ≡ filling_of (tables x.now) table q }
{
    match table {
        Table::Types => type_filling(x, q),
        Table::Variables => variable_filling(x, q),
        Table::Rows => row_filling(x, q),
        Table::States(k) => state_filling(x, k, q),
    }
}

fn count_of(x: &Automaton, table: Table) -> u16
    requires { Located x.now.image.now x.now.trailer }
    ensures { result ≡ count_of x.now.trailer table }
{
    match table {
        Table::Types => (x.trailer.variables - x.trailer.types) / 2,
        Table::Variables => (x.trailer.states - x.trailer.variables) / 4,
        Table::Rows => (x.trailer.length - 16 - x.trailer.rows) / 8,
        Table::States(_) => (x.trailer.rows - x.trailer.states) / 2,
    }
}

fn put_entry(x: &Automaton, st: Style, table: Table, q: u16, page: &mut Page<'_>)
    requires { EntryOf x.now.image.now x.now.trailer table q }
    ensures { Written (entry_text (tables x.now) st table q) page.old page.new }
{
    let f = filling_of(x, table, q);
    put_line(x, st, f.line, f.fields, q, page);
}

// All lines of a table.
pub fn put_table(x: &Automaton, st: Style, table: Table, page: &mut Page<'_>)
    requires { Located x.now.image.now x.now.trailer }
    ensures { Written (table_text (tables x.now) x.now.trailer st table) page.old page.new }
{
    let n = count_of(x, table);
    for q in 0..n {
        put_entry(x, st, table, q, page);
    }
}
