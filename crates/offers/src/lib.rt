// A communication: its offers from left to right, emissions and receipts, and the label that they make.
#![tactic(auto)]

ghost use mathlib.Core.{Path.◌≡◌, List.[]};
ghost use Rattle.image.specs.Located.{tables};
ghost use Rattle.model.specs.Answers.{gate};
ghost use Rattle.model.specs.Image.{tables_of};
ghost use Rattle.model.specs.Rows.{expression};
ghost use Rattle.model.specs.Decode.{expression_at, pattern_at, offers_at};
ghost use Rattle.model.specs.Run.{eval, offering, communicating};
ghost use Rattle.expressions.specs.Ready.{Runs};
ghost use Rattle.actions.specs.State.{state_of, result_of};
ghost use Rattle.offers.specs.Accepting.{given, gave, refused, offer_by, emits, receives, accepts};
ghost use Rattle.offers.specs.Asks.{Receives, Accepts, AcceptsAll, Communicates};

use actions::{Ran, Run, Word, read_word};
use expressions::{eval, row};
use image::Automaton;
use model::{Fields, Image, Outcome, Refusal, Row, Tested};
use patterns::matches;
use typing::type_of_pattern;

// The code of an emission.
const EMIT: u16 = 40;

// What an offer gives, and the words read then.
#[derive(Clone, Copy)]
pub struct Offered {
    pub value: Result<i32, Refusal>,
    pub words: usize,
}

impl Offered {
    fn gave(z: i32, words: usize) -> Offered
        ensures { result ≡ gave z words }
    {
        Offered {
            value: Ok(z),
            words,
        }
    }

    fn refused(y: Refusal, words: usize) -> Offered
        ensures { result ≡ refused y words }
    {
        Offered {
            value: Err(y),
            words,
        }
    }
}

// An emission: the value of its expression.
fn emit(image: &[u8], rows: u16, place: u16, e: u16, store: &[i32], words: usize) -> Offered
    requires { Runs expression image.now rows e store.now }
    ensures { result ≡ emits (eval (tables_of image.now) (expression_at (tables_of image.now) e) store.now) place words }
{
    match eval(image, rows, e, store) {
        Some(z) => Offered::gave(z, words),
        None => Offered::refused(Refusal::Undefined(Row(place)), words),
    }
}

// A receipt: a word of its pattern's type, which has to match. Nothing has been said, so that a failure is 21.
fn receive(
    x: &Automaton,
    place: u16,
    p: u16,
    store: &mut [i32],
    script: &[u8],
    words: usize,
) -> Offered
    requires { Receives x.now.image.now x.now.trailer p store.old }
    ensures { given result store.new ≡ receives (tables x.now) (pattern_at (tables x.now) p) script.now place store.old words }
{
    let n = x.size(type_of_pattern(x, p));
    match read_word(script, words, n) {
        Word::Ended => Offered::refused(Refusal::ScriptEnded(Row(place)), words),
        Word::OutOfRange => Offered::refused(Refusal::WordOutOfRange(Row(place)), words + 1),
        Word::Read(z) => match matches(x.image, x.trailer.rows, p, z, store) {
            Tested::Holds => Offered::gave(z, words + 1),
            Tested::Fails => Offered::refused(Refusal::Blocked(Row(place)), words + 1),
            Tested::Unsure => Offered::refused(Refusal::Undefined(Row(place)), words + 1),
        },
    }
}

// One offer, by its row's fields.
fn accept(
    x: &Automaton,
    place: u16,
    w: Fields,
    store: &mut [i32],
    script: &[u8],
    words: usize,
) -> Offered
    requires { Accepts x.now.image.now x.now.trailer w store.old }
    ensures { given result store.new ≡ accepts (tables x.now) (offer_by (tables x.now) w) script.now place store.old words }
{
    if w.code == EMIT {
        return emit(x.image, x.trailer.rows, place, w.a, store, words);
    }
    receive(x, place, w.a, store, script, words)
}

// The offers from left to right, their values one after another; said on a gate once all are accepted.
fn accept_all(
    x: &Automaton,
    place: u16,
    w: Fields,
    store: &mut [i32],
    script: &[u8],
    values: &mut [i32],
    run: Run,
) -> Ran
    requires { AcceptsAll x.now.image.now x.now.trailer w.b store.old values.old run }
    ensures { result_of result store.new values.new ≡ offering (tables x.now) (gate w.a) (offers_at (tables x.now) w.b) [] script.now place (state_of run store.old values.old) }
{
    // The list goes from row to row by their next fields: words and values are counted, and no range is gone over.
    let mut words = run.words;
    let mut count: u16 = 0;
    let mut r = w.b;
    while r != Image::NONE {
        let o = row(x.image, x.trailer.rows, r);
        let offered = accept(x, place, o, store, script, words);
        words = offered.words;
        match offered.value {
            Err(y) => {
                return Ran {
                    out: Outcome::Stops(y),
                    run: Run { words, ..run },
                };
            }
            Ok(z) => {
                values[count as usize] = z;
                count += 1;
                r = o.b;
            }
        }
    }
    Ran {
        out: Outcome::Ends,
        run: Run {
            words,
            spoken: true,
            gate: w.a,
            count,
            ..run
        },
    }
}

// Communicates, once in a run: a second time is refused before any offer.
pub fn communicate(
    x: &Automaton,
    r: u16,
    w: Fields,
    store: &mut [i32],
    script: &[u8],
    values: &mut [i32],
    run: Run,
) -> Ran
    requires { Communicates x.now.image.now x.now.trailer r w store.old values.old }
    ensures { result_of result store.new values.new ≡ communicating (tables x.now) (gate w.a) (offers_at (tables x.now) w.b) script.now r (state_of run store.old values.old) }
{
    if run.spoken {
        return Ran {
            out: Outcome::Stops(Refusal::SecondCommunication(Row(r))),
            run,
        };
    }
    accept_all(x, r, w, store, script, values, run)
}
