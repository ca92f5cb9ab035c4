// Binding (refusal 9): a vector or a list of offers defines each variable at most once, offers run left to right, the body
// of a for leaves its variable alone, and the initial condition reads parameters only.
#![tactic(auto)]

ghost use Rattle.image.specs.Located.{tables};
ghost use Rattle.std.specs.Prelude.{◌≡◌};
ghost use Rattle.model.specs.Rows.{kind_of, shape_of};
ghost use Rattle.model.specs.Decode.{offers_at};
ghost use Rattle.model.specs.Binding.{distinct, bound};
ghost use Rattle.binding.specs.Bound.{binding_verdict, Masked, bits_at, bound_offers, Item, Vector, Offers, Ruled, Rule, next_in};

use image::Automaton;
use masks::{Masks, apart, bit, inside, masks_in, parameters};
use model::{Fields, Image, Refusal, Row};

// The row after an item's: only code 46 has it in field b.
fn next_item(w: Fields) -> u16
    requires { Item (kind_of (shape_of w.code).means) }
    ensures { result ≡ next_in w }
{
    if w.code == 46 { w.b } else { w.c }
}

// No variable of a vector stands in it twice: each is apart from those of the rest of the list.
// No plainer as typing's all_pass: the next row is in field b or c by the code, and the test reads that row's masks too.
fn distinct_items(x: &Automaton, first: u16, masks: &[Masks]) -> bool
    requires { Vector x.now.image.now x.now.trailer first masks.now }
    ensures { result ≡ distinct (bits_at (tables x.now) first) }
{
    let mut r = first;
    while r != Image::NONE {
        let w = x.fields(r);
        let next = next_item(w);
        if !apart(bit(w.a), masks_in(masks, next).defs) {
            return false;
        }
        r = next;
    }
    true
}

// What an offer defines, and what it uses, is apart from what later offers define.
// No plainer as typing's all_pass: the next row is in field b, and the test reads that row's masks too.
fn bound_offers(x: &Automaton, first: u16, masks: &[Masks]) -> bool
    requires { Offers x.now.image.now x.now.trailer first masks.now }
    ensures { result ≡ bound_offers (offers_at (tables x.now) first) }
{
    let mut r = first;
    while r != Image::NONE {
        let w = x.fields(r);
        let offer = masks_in(masks, w.a);
        let later = masks_in(masks, w.b).defs;
        if !apart(offer.defs, later) {
            return false;
        }
        if !apart(offer.uses, later) {
            return false;
        }
        r = w.b;
    }
    true
}

// Row r's rule. The condition's row is an expression, so it has no rule but that it reads what is allowed: parameters.
fn bound(x: &Automaton, r: u16, masks: &[Masks], allowed: u64) -> bool
    requires { Rule x.now.image.now x.now.trailer r masks.now allowed }
    ensures { result ≡ bound (tables x.now) r }
{
    if r == x.trailer.condition {
        return inside(masks_in(masks, r).uses, allowed);
    }
    let w = x.fields(r);
    let code = w.code;
    match code {
        49..=51 => distinct_items(x, w.a, masks),
        52 => bound_offers(x, w.b, masks),
        60 => apart(masks_in(masks, w.a).defs, masks_in(masks, w.b).defs),
        _ => true,
    }
}

// The lowest row whose rule fails.
fn rows_verdict(x: &Automaton, masks: &[Masks]) -> Result<(), Refusal>
    requires { Ruled x.now.image.now x.now.trailer masks.now }
    ensures { result ≡ binding_verdict (tables x.now) }
{
    let allowed = parameters(x);
    let n = x.row_count();
    match (0..n).find(|r| !bound(x, *r, masks, allowed)) {
        Some(r) => Err(Refusal::Binding(Row(r))),
        None => Ok(()),
    }
}

// 9: binding. What is lent on ends where the rows end, so that none is past it.
pub fn binding_verdict(x: &Automaton, masks: &[Masks]) -> Result<(), Refusal>
    requires { Masked x.now.image.now x.now.trailer masks.now }
    ensures { result ≡ binding_verdict (tables x.now) }
{
    let n = x.row_count() as usize;
    rows_verdict(x, &masks[..n])
}
