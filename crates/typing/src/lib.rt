// Typing, refusal 8: the rule of each row of an image that is free of 1 to 6.
#![tactic(auto)]

ghost use Rattle.std.specs.Prelude.{◌≡◌};
ghost use Rattle.model.specs.Rows.{expression, pattern, gets, of_type, range, arm};
ghost use Rattle.model.specs.Decode.{list_at};
ghost use Rattle.model.specs.Typing.{typed};
ghost use Rattle.image.specs.Located.{tables, Rooted};
ghost use Rattle.typing.specs.Rules.{typing_verdict, row_typed, expression_type, condition_type, pattern_type, gets_typed, of_types_typed, arms_typed, range_typed, TestedList, AllPass, operand_of, result_of, takes_types, Operator, FormedRow, OfKind, OrNone, RootedRow};

use image::Automaton;
use model::{Fields, Image, Refusal, Row};

const TAU: u16 = 0;

// The type of an operator's operands; NONE where they are of one type, whichever that is.
fn operand_type(code: u16) -> u16
    requires { Operator code }
    ensures { result ≡ operand_of code }
{
    match code {
        16..=18 => Image::BOOL, // not, and, or
        25 => Image::NONE, // equal
        _ => Image::INT, // negate to remainder, less, less or equal
    }
}

// The type of an operator's result.
fn result_type(code: u16) -> u16
    requires { Operator code }
    ensures { result ≡ result_of code }
{
    match code {
        19..=24 => Image::INT, // negate to remainder
        _ => Image::BOOL, // not, and, or, the comparisons
    }
}

// Operands of the types s and t are what the operator takes.
fn takes(code: u16, s: u16, t: u16) -> bool
    requires { Operator code }
    ensures { result ≡ takes_types (operand_of code) s t }
{
    let o = operand_type(code);
    if o == Image::NONE {
        return s == t;
    }
    s == o && t == o
}

// type(E) of an expression's row.
pub fn type_of_expression(x: &Automaton, r: u16) -> u16
    requires { OfKind x.now.image.now x.now.trailer expression r }
    ensures { result ≡ expression_type (tables x.now) r }
{
    let w = x.fields(r);
    let code = w.code;
    match code {
        1 => x.variable_type(w.a),
        2 => w.a,
        _ => result_type(code),
    }
}

// The same of a condition; one that is left out counts as true.
fn type_of_condition(x: &Automaton, r: u16) -> u16
    requires { OrNone x.now.image.now x.now.trailer expression r }
    ensures { result ≡ condition_type (tables x.now) r }
{
    if r == Image::NONE {
        return Image::BOOL;
    }
    type_of_expression(x, r)
}

// type(P) of a pattern's row: that of the pattern inside its conditions.
pub fn type_of_pattern(x: &Automaton, r: u16) -> u16
    requires { OfKind x.now.image.now x.now.trailer pattern r }
    ensures { result ≡ pattern_type (tables x.now) r }
{
    let mut at = r;
    loop {
        let w = x.fields(at);
        let code = w.code;
        match code {
            33 => return x.variable_type(w.a),
            35 => at = w.a,
            _ => return w.a,
        }
    }
}

// The test passes at every row of the list that starts at row first; the next row is in field c.
fn all_pass<F: Fn(Fields) -> bool>(x: &Automaton, first: u16, test: F) -> bool
    requires { TestedList x.now.image.now x.now.trailer (F.pre test) first }
    ensures { AllPass (F.post test) (tables x.now) (list_at (tables x.now) first) result }
{
    let mut at = first;
    while at != Image::NONE {
        let w = x.fields(at);
        if !test(w) {
            return false;
        }
        at = w.c;
    }
    true
}

// Each item's expression is of its variable's type.
fn gets_typed(x: &Automaton, r: u16) -> bool
    requires { OrNone x.now.image.now x.now.trailer gets r }
    ensures { result ≡ gets_typed (tables x.now) r }
{
    all_pass(x, r, |w| type_of_expression(x, w.b) == x.variable_type(w.a))
}

// Each item's type is its variable's.
fn of_types_typed(x: &Automaton, r: u16) -> bool
    requires { OrNone x.now.image.now x.now.trailer of_type r }
    ensures { result ≡ of_types_typed (tables x.now) r }
{
    all_pass(x, r, |w| x.variable_type(w.a) == w.b)
}

// Each arm's pattern is of the type t.
fn arms_typed(x: &Automaton, t: u16, r: u16) -> bool
    requires { OrNone x.now.image.now x.now.trailer arm r }
    ensures { result ≡ arms_typed (tables x.now) t r }
{
    all_pass(x, r, |w| type_of_pattern(x, w.a) == t)
}

// "A range's variable is int."
fn range_typed(x: &Automaton, r: u16) -> bool
    requires { OfKind x.now.image.now x.now.trailer range r }
    ensures { result ≡ range_typed (tables x.now) r }
{
    let w = x.fields(r);
    x.variable_type(w.a) == Image::INT
}

// The rule of a row, from the types of the rows that it names.
fn row_typed(x: &Automaton, r: u16) -> bool
    requires { FormedRow x.now.image.now x.now.trailer r }
    ensures { result ≡ row_typed (tables x.now) r }
{
    let w = x.fields(r);
    let code = w.code;
    match code {
        16 | 19 => type_of_expression(x, w.a) == operand_type(code),
        17 | 18 | 20..=27 => takes(code, type_of_expression(x, w.a), type_of_expression(x, w.b)),
        35 => type_of_expression(x, w.b) == Image::BOOL,
        49 => gets_typed(x, w.a),
        50 => of_types_typed(x, w.a) && type_of_condition(x, w.b) == Image::BOOL,
        52 => w.a != TAU || w.b == Image::NONE,
        56 => arms_typed(x, type_of_expression(x, w.a), w.b),
        59 => type_of_expression(x, w.a) == Image::BOOL,
        60 => range_typed(x, w.a),
        _ => true,
    }
}

// The rule of a row, and the initial condition is bool.
pub fn typed(x: &Automaton, r: u16) -> bool
    requires { RootedRow x.now.image.now x.now.trailer r }
    ensures { result ≡ typed (tables x.now) r }
{
    if r == x.trailer.condition && type_of_expression(x, r) != Image::BOOL {
        return false;
    }
    row_typed(x, r)
}

// 8 at the lowest row whose rule fails.
pub fn typing_verdict(x: &Automaton) -> Result<(), Refusal>
    requires { Rooted x.now.image.now x.now.trailer }
    ensures { result ≡ typing_verdict (tables x.now) }
{
    let n = x.row_count();
    match (0..n).find(|r| !typed(x, *r)) {
        Some(r) => Err(Refusal::Typing(Row(r))),
        None => Ok(()),
    }
}
