// What a row's ways take from rows that are no actions: a condition, a subject's type, the patterns of arms.
ghost use Rattle.image.specs.Located.{tables};
ghost use Rattle.std.specs.Prelude.{◌≡◌};
ghost use Rattle.model.specs.Rows.{expression, pattern, arm};
ghost use Rattle.model.specs.Decode.{condition_at, pattern_at};
ghost use Rattle.model.specs.Speech.{is_always};
ghost use Rattle.speech.specs.Filled.{arms_at};
ghost use Rattle.speech.specs.Case.{OfKind, OrNone, CaseOf, CaughtAs, CaughtBy, ValueBit, all_in, exhaustive_at};

use image::Automaton;
use masks::{bit, full, inside};
use model::Image;
use typing::type_of_expression;

// The condition of an any, or none: whether it is the constant true.
pub fn always(x: &Automaton, r: u16) -> bool
    requires { OrNone x.now.image.now x.now.trailer expression r }
    ensures { result ≡ is_always (condition_at (tables x.now) r) }
{
    if r == Image::NONE {
        return true;
    }
    let w = x.fields(r);
    (w.code == 2) & (w.a == 0) & (w.b == 1)
}

// What the arms of a case catch: every value; those of the values 0 to 63, as a mask.
#[derive(Clone, Copy)]
struct Caught {
    all: bool,
    values: u64,
}

// The value of an unguarded constant. One from 64 on isn't asked for: see all_in.
fn value_bit(code: u16, value: u16) -> u64
    ensures { ValueBit code value result }
{
    if code == 34 {
        if value < 64 {
            return bit(value);
        }
    }
    0
}

// A pattern: an unguarded any or variable, or an unguarded constant. A guarded one, 35, catches nothing for sure.
fn pattern_catches(x: &Automaton, r: u16) -> Caught
    requires { OfKind x.now.image.now x.now.trailer pattern r }
    ensures { CaughtAs (pattern_at (tables x.now) r) result.all result.values }
{
    let w = x.fields(r);
    Caught {
        all: (w.code == 32) | (w.code == 33),
        values: value_bit(w.code, w.b),
    }
}

// The arms from the first on.
fn arms_catch(x: &Automaton, first: u16) -> Caught
    requires { OrNone x.now.image.now x.now.trailer arm first }
    ensures { CaughtBy (arms_at (tables x.now) first) result.all result.values }
{
    let mut all = false;
    let mut values: u64 = 0;
    let mut at = first;
    while at != Image::NONE {
        let w = x.fields(at);
        let c = pattern_catches(x, w.a);
        all = all | c.all;
        values = values | c.values;
        at = w.c;
    }
    Caught { all, values }
}

// A case has at most 64 arms, so a type of more values isn't caught value by value.
fn all_in(values: u64, n: u16) -> bool
    ensures { result ≡ all_in values n }
{
    n <= 64 && inside(full(n), values)
}

// Figure 11: the arms catch every value of the subject's type.
pub fn exhaustive(x: &Automaton, subject: u16, first: u16) -> bool
    requires { CaseOf x.now.image.now x.now.trailer subject first }
    ensures { result ≡ exhaustive_at (tables x.now) subject first }
{
    let c = arms_catch(x, first);
    if c.all {
        return true;
    }
    let t = type_of_expression(x, subject);
    if t == Image::INT {
        return false;
    }
    all_in(c.values, x.size(t))
}
