// Patterns, matched with a value on a store, and the first arm whose pattern matches. A failed match leaves the store.
#![tactic(auto)]

ghost use Rattle.std.specs.Prelude.{◌≡◌, length};
ghost use Rattle.model.specs.Image.{tables_of};
ghost use Rattle.model.specs.Rows.{pattern};
ghost use Rattle.model.specs.Decode.{pattern_at, list_at};
ghost use Rattle.expressions.specs.Ready.{Runs};
ghost use Rattle.patterns.specs.Bound.{inner, base_of, judged, undone, SlotIn, Bound};
ghost use Rattle.patterns.specs.Finding.{Finds, finding, find_arm};
ghost use Rattle.patterns.specs.Matching.{Tries, matching, matches};

use expressions::{constant, row, test};
use model::{Fields, Image, Tested};

// The codes of a variable's pattern, a constant's and one with a condition.
const VARIABLE: u16 = 33;

const CONSTANT: u16 = 34;

const WHERE: u16 = 35;

// The action's row of the first arm that matches.
#[derive(Clone, Copy)]
pub enum Found {
    Arm(u16),
    NoArm,
    Unsure,
}

// Binds the pattern's variable, if it has one: its slot, and what it held.
fn bind(image: &[u8], rows: u16, p: u16, z: i32, store: &mut [i32]) -> Option<(u16, i32)>
    requires { Runs pattern image.now rows p store.old }
    ensures { Bound (tables_of image.now) (pattern_at (tables_of image.now) p) z store.old result store.new }
{
    let mut here = p;
    loop {
        let w = row(image, rows, here);
        if w.code == VARIABLE {
            let was = store[w.a as usize];
            store[w.a as usize] = z;
            return Some((w.a, was));
        }
        if w.code != WHERE {
            return None;
        }
        here = w.a;
    }
}

// Gives the slot back what it held.
fn restore(store: &mut [i32], old: Option<(u16, i32)>)
    requires { SlotIn old (length store.old) }
    ensures { store.new ≡ undone old store.old }
{
    if let Some((v, z)) = old {
        store[v as usize] = z;
    }
}

// The inner result, unless that holds.
fn inner(t: Tested, outer: Tested) -> Tested
    ensures { result ≡ inner t outer }
{
    match t {
        Tested::Holds => outer,
        Tested::Fails => Tested::Fails,
        Tested::Unsure => Tested::Unsure,
    }
}

// What a pattern without a condition gives, and its conditions around it.
fn at_base(w: Fields, z: i32, kept: Tested) -> Tested
    ensures { result ≡ inner (base_of w z) kept }
{
    if w.code != CONSTANT {
        return kept;
    }
    if constant(w.a, w.b) == z {
        return kept;
    }
    Tested::Fails
}

// What a pattern gives on the store with its variable bound.
fn judge(image: &[u8], rows: u16, p: u16, z: i32, store: &[i32]) -> Tested
    requires { Runs pattern image.now rows p store.now }
    ensures { result ≡ judged (tables_of image.now) (pattern_at (tables_of image.now) p) z store.now }
{
    let mut here = p;
    let mut kept = Tested::Holds;
    loop {
        let w = row(image, rows, here);
        if w.code != WHERE {
            return at_base(w, z, kept);
        }
        kept = inner(test(image, rows, w.b, store), kept);
        here = w.a;
    }
}

// Matches a value with a pattern.
pub fn matches(image: &[u8], rows: u16, p: u16, z: i32, store: &mut [i32]) -> Tested
    requires { Tries image.now rows p z store.old }
    ensures { matching result store.new ≡ matches (tables_of image.now) (pattern_at (tables_of image.now) p) z store.old }
{
    let old = bind(image, rows, p, z, store);
    match judge(image, rows, p, z, store) {
        Tested::Holds => Tested::Holds,
        Tested::Fails => {
            restore(store, old);
            Tested::Fails
        }
        Tested::Unsure => {
            restore(store, old);
            Tested::Unsure
        }
    }
}

// The first of the arms from a row on whose pattern matches; each is tried on the store at entry. Document 01 asks for one search
// that leaves both walks at once, so that judge's walk stands here again.
pub fn find_arm(image: &[u8], rows: u16, first: u16, z: i32, store: &mut [i32]) -> Found
    requires { Finds image.now rows first z store.old }
    ensures { finding result store.new ≡ find_arm (tables_of image.now) (list_at (tables_of image.now) first) z store.old }
{
    let mut arm = first;
    let found = 'arms: loop {
        if arm == Image::NONE {
            break Found::NoArm;
        }
        let w = row(image, rows, arm);
        let old = bind(image, rows, w.a, z, store);
        let mut here = w.a;
        let mut kept = Tested::Holds;
        loop {
            let q = row(image, rows, here);
            if q.code != WHERE {
                match at_base(q, z, kept) {
                    Tested::Holds => break 'arms Found::Arm(w.b),
                    Tested::Fails => break,
                    Tested::Unsure => {
                        restore(store, old);
                        break 'arms Found::Unsure;
                    }
                }
            }
            kept = inner(test(image, rows, q.b, store), kept);
            here = q.a;
        }
        restore(store, old);
        arm = w.c;
    };
    found
}
