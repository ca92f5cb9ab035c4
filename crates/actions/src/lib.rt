// The simple actions that say nothing: assignment, any, reset; each on a working copy of the store.
#![tactic(auto)]

ghost use Rattle.image.specs.Located.{tables};
ghost use Rattle.std.specs.Prelude.{◌≡◌, cond};
ghost use Rattle.model.specs.declared.Refusal.TheVariants.{Blocked, BlockedSpoken};
ghost use Rattle.model.specs.Answers.{row};
ghost use Rattle.model.specs.Image.{tables_of};
ghost use Rattle.model.specs.Rows.{expression, gets, item};
ghost use Rattle.model.specs.Decode.{gets_at, variables_at, of_types_at, condition_at};
ghost use Rattle.model.specs.Run.{choosing, resetting};
ghost use Rattle.actions.specs.Doing.{Doing, trying};
ghost use Rattle.actions.specs.Items.{Items, assigns};
ghost use Rattle.actions.specs.State.{Silent};
ghost use Rattle.actions.specs.Words.{word_of, Drawn, drawing};

use expressions::{eval, row, test};
use image::Automaton;
use model::{Fields, Image, Outcome, Refusal, Row, Tested};
use values::of_size;
use words::word;

// What a run threads beside the store: the words read, the units left, and what has been said: its gate and the number of
// its values.
#[derive(Clone, Copy)]
pub struct Run {
    pub words: usize,
    pub left: usize,
    pub spoken: bool,
    pub gate: u16,
    pub count: u16,
}

// How an action ended, and what it threads on.
#[derive(Clone, Copy)]
pub struct Ran {
    pub out: Outcome,
    pub run: Run,
}

// A word of the script: a value of its type; or there is none; or it is no such value.
#[derive(Clone, Copy)]
pub enum Word {
    Read(i32),
    Ended,
    OutOfRange,
}

// Is every item's value known? Only then are they stored, after all are evaluated: on the way out.
fn assign_all(image: &[u8], rows: u16, r: u16, store: &mut [i32]) -> bool
    requires { Items gets image.now rows r store.old }
    ensures { record { done = result; store = store.new } ≡ assigns (tables_of image.now) (gets_at (tables_of image.now) r) store.old }
{
    if r == Image::NONE {
        return true;
    }
    let w = row(image, rows, r);
    match eval(image, rows, w.b, store) {
        None => false,
        Some(z) => {
            let done = assign_all(image, rows, w.c, store);
            if done {
                store[w.a as usize] = z;
            }
            done
        }
    }
}

// The same; an item alone, as most are, needs no call.
pub fn assign(image: &[u8], rows: u16, r: u16, store: &mut [i32]) -> bool
    requires { Items gets image.now rows r store.old }
    ensures { record { done = result; store = store.new } ≡ assigns (tables_of image.now) (gets_at (tables_of image.now) r) store.old }
{
    if r == Image::NONE {
        return true;
    }
    let w = row(image, rows, r);
    if w.c != Image::NONE {
        return assign_all(image, rows, r, store);
    }
    match eval(image, rows, w.b, store) {
        None => false,
        Some(z) => {
            store[w.a as usize] = z;
            true
        }
    }
}

// Marks every item's variable undefined.
pub fn reset(image: &[u8], rows: u16, first: u16, store: &mut [i32])
    requires { Items item image.now rows first store.old }
    ensures { store.new ≡ resetting (tables_of image.now) (variables_at (tables_of image.now) first) store.old }
{
    let mut r = first;
    while r != Image::NONE {
        let w = row(image, rows, r);
        store[w.a as usize] = Image::UNDEFINED;
        r = w.b;
    }
}

// A word of the script, for a type with n values.
pub fn read_word(script: &[u8], i: usize, n: u16) -> Word
    ensures { result ≡ word_of n script.now i }
{
    if script.len() / 4 <= i {
        return Word::Ended;
    }
    let z = word(script, i);
    if of_size(Image::HALF, n, z) {
        return Word::Read(z);
    }
    Word::OutOfRange
}

// Any's words: each is read, judged and stored in its turn.
pub fn draw(
    x: &Automaton,
    place: u16,
    first: u16,
    store: &mut [i32],
    script: &[u8],
    run: Run,
) -> Ran
    requires { Drawn x.now.image.now x.now.trailer first store.old }
    ensures { Silent result run store.old store.new (drawing (tables x.now) (of_types_at (tables x.now) first) script.now place) }
{
    // The list goes from row to row by their next fields: words are counted, and no range is gone over.
    let mut words = run.words;
    let mut r = first;
    while r != Image::NONE {
        let w = row(x.image, x.trailer.rows, r);
        match read_word(script, words, x.size(w.b)) {
            Word::Ended => {
                return Ran {
                    out: Outcome::Stops(Refusal::ScriptEnded(Row(place))),
                    run: Run { words, ..run },
                };
            }
            Word::OutOfRange => {
                return Ran {
                    out: Outcome::Stops(Refusal::WordOutOfRange(Row(place))),
                    run: Run {
                        words: words + 1,
                        ..run
                    },
                };
            }
            Word::Read(z) => {
                store[w.a as usize] = z;
                words += 1;
                r = w.c;
            }
        }
    }
    Ran {
        out: Outcome::Ends,
        run: Run { words, ..run },
    }
}

// Blocked before or after communicating.
pub fn blocked_at(r: u16, spoken: bool) -> Refusal
    ensures { result ≡ cond spoken (BlockedSpoken (row r)) (Blocked (row r)) }
{
    if spoken {
        return Refusal::BlockedSpoken(Row(r));
    }
    Refusal::Blocked(Row(r))
}

// Any's condition; none counts as true.
fn try_condition(image: &[u8], rows: u16, r: u16, c: u16, store: &[i32], run: Run) -> Ran
    requires { Items expression image.now rows c store.now }
    ensures { Silent result run store.now store.now (trying (tables_of image.now) c r) }
{
    if c == Image::NONE {
        return Ran {
            out: Outcome::Ends,
            run,
        };
    }
    match test(image, rows, c, store) {
        Tested::Holds => Ran {
            out: Outcome::Ends,
            run,
        },
        Tested::Fails => Ran {
            out: Outcome::Stops(blocked_at(r, run.spoken)),
            run,
        },
        Tested::Unsure => Ran {
            out: Outcome::Stops(Refusal::Undefined(Row(r))),
            run,
        },
    }
}

// 50, R12: all words are read before the condition is tried.
pub fn choose(x: &Automaton, r: u16, w: Fields, store: &mut [i32], script: &[u8], run: Run) -> Ran
    requires { Doing 50 x.now.image.now x.now.trailer r w store.old }
    ensures { Silent result run store.old store.new (choosing (tables x.now) (of_types_at (tables x.now) w.a) (condition_at (tables x.now) w.b) script.now r) }
{
    let drawn = draw(x, r, w.a, store, script, run);
    let out = drawn.out;
    match out {
        Outcome::Ends => try_condition(x.image, x.trailer.rows, r, w.b, store, drawn.run),
        _ => drawn,
    }
}
