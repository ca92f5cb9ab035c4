// The three calls on words, and as the C driver has them.
#![tactic(auto)]

ghost use Rattle.std.specs.Prelude.{◌≡◌, ◌/◌, ◌^◌, ◌≤◌, ◌<◌, min, length, Ok};
ghost use Rattle.model.specs.Answers.{state};
ghost use Rattle.model.specs.Calls.{check, start, step};
ghost use Rattle.model.specs.Exports.{pack_refusal, pack_verdict, pack_stepped, check_bytes, start_bytes, step_bytes};

use image::{Automaton, trailer};
use model::{Image, Move, Refusal, State};
use stages::judge;
use stepping::take_step;
use words::{get_words, put_words};

// check, with masks that its caller lends: a refusal leaves the sets alone.
fn check_on(image: &[u8], sets: &mut [u64], masks: &mut [u64]) -> Result<(), Refusal>
    requires { 64 ≤ length masks.old }
    ensures { record { answer = result; sets = sets.new } ≡ check image.now sets.old }
{
    judge(image, sets.len(), masks)?;
    let x = Automaton {
        image,
        trailer: trailer(image),
    };
    let n = x.state_count() as usize;
    sets[..n].copy_from_slice(&masks[..n]);
    Ok(())
}

// The verdict on an image, and where it is accepted its sets.
pub fn check(image: &[u8], sets: &mut [u64]) -> Result<(), Refusal>
    ensures { record { answer = result; sets = sets.new } ≡ check image.now sets.old }
{
    let mut masks = [0u64; Image::STATES as usize];
    check_on(image, sets, &mut masks)
}

// A refusal's number, and its place from bit 16 on: the C interface takes one number.
fn pack_refusal(y: Refusal) -> u64
    ensures { result ≡ pack_refusal y }
{
    y.number() as u64 + y.place() as u64 * 65536
}

// 0, or a refusal.
fn pack_verdict(v: Result<(), Refusal>) -> u64
    ensures { result ≡ pack_verdict v }
{
    match v {
        Ok(()) => 0,
        Err(y) => pack_refusal(y),
    }
}

// check on bytes, with masks that its caller lends.
fn check_bytes_on(image: &[u8], sets: &mut [u8], masks: &mut [u64]) -> u64
    requires { 64 ≤ length masks.old }
    ensures { record { answer = result; lent = sets.new } ≡ check_bytes image.now sets.old }
{
    let v = judge(image, sets.len() / 8, masks);
    match v {
        Err(_) => pack_verdict(v),
        Ok(()) => {
            let x = Automaton {
                image,
                trailer: trailer(image),
            };
            let n = x.state_count() as usize;
            put_words(sets, &masks[..n]);
            pack_verdict(v)
        }
    }
}

// check, for C: the sets are little-endian words of 8 bytes.
pub fn ntif_check(image: &[u8], sets: &mut [u8]) -> u64
    ensures { record { answer = result; lent = sets.new } ≡ check_bytes image.now sets.old }
{
    let mut masks = [0u64; Image::STATES as usize];
    check_bytes_on(image, sets, &mut masks)
}

// The verdict on an image, parameter values and a store, and where it is accepted the store that the automaton starts with.
pub fn start(image: &[u8], params: &[i32], store: &mut [i32]) -> Result<(), Refusal>
    ensures { record { answer = result; store = store.new } ≡ start image.now params.now store.old }
{
    starting::start(image, params, store)
}

// One word more than an image has variables: a longer slice is refused as this many words are.
const WORDS: usize = 65;

// start on bytes, with words that its caller lends; of the store only its length is read.
fn start_bytes_on(
    image: &[u8],
    params: &[u8],
    store: &mut [u8],
    given: &mut [i32],
    slots: &mut [i32],
) -> u64
    requires { (length given.old ≡ min (length params.now / 4) 65) × (length slots.old ≡ min (length store.old / 4) 65) }
    ensures { record { answer = result; lent = store.new } ≡ start_bytes image.now params.now store.old }
{
    get_words(given, params);
    let v = starting::start(image, given, slots);
    match v {
        Err(_) => pack_verdict(v),
        Ok(()) => {
            put_words(store, slots);
            pack_verdict(v)
        }
    }
}

// start, for C: parameters and store are little-endian words of 4 bytes.
pub fn ntif_start(image: &[u8], params: &[u8], store: &mut [u8]) -> u64
    ensures { record { answer = result; lent = store.new } ≡ start_bytes image.now params.now store.old }
{
    let mut given = [0i32; WORDS];
    let mut slots = [0i32; WORDS];
    let n = (params.len() / 4).min(WORDS);
    let m = (store.len() / 4).min(WORDS);
    start_bytes_on(image, params, store, &mut given[..n], &mut slots[..m])
}

// One step, or why there is none.
pub fn step(
    image: &[u8],
    q: State,
    store: &mut [i32],
    script: &[u8],
    budget: u32,
    label: &mut [i32],
) -> Result<Move, Refusal>
    ensures { record { answer = result; store = store.new; label = label.new } ≡ step image.now q store.old script.now budget label.old }
{
    take_step(image, q, store, script, budget, label)
}

// A state that doesn't fit is none that an image has.
fn state_of(q: u32) -> State
    ensures { result ≡ state (min q 65535) }
{
    State(q.min(65535) as u16)
}

// The next state from bit 8, the units from bit 16, the words from bit 40 on: the C interface takes one number.
fn pack_move(m: Move) -> u64
    requires { m.words < 2 ^ 23 }
    ensures { result ≡ pack_stepped (Ok m) }
{
    let next = m.next.0 as u64 * 256;
    let units = m.units as u64 * 65536;
    let words = m.words as u64 * 1099511627776;
    next + (units + words)
}

// step on bytes, with words that its caller lends: no more of them than can matter.
fn step_bytes_on(
    image: &[u8],
    q: u32,
    store: &mut [u8],
    script: &[u8],
    budget: u32,
    label: &mut [u8],
    slots: &mut [i32],
    ten: &mut [i32],
) -> u64
    requires { (length slots.old ≡ min (length store.old / 4) 65) × (length ten.old ≡ min (length label.old / 4) 10) }
    ensures { record { answer = result; store = store.new; label = label.new } ≡ step_bytes image.now q store.old script.now budget label.old }
{
    get_words(slots, store);
    let done = take_step(image, state_of(q), slots, script, budget, ten);
    match done {
        Err(y) => pack_refusal(y),
        Ok(m) => {
            put_words(store, slots);
            put_words(label, ten);
            pack_move(m)
        }
    }
}

// step, for C: store, script and label are little-endian words of 4 bytes.
pub fn ntif_step(
    image: &[u8],
    q: u32,
    store: &mut [u8],
    script: &[u8],
    budget: u32,
    label: &mut [u8],
) -> u64
    ensures { record { answer = result; store = store.new; label = label.new } ≡ step_bytes image.now q store.old script.now budget label.old }
{
    let mut slots = [0i32; WORDS];
    let mut ten = [0i32; Image::LABEL as usize];
    let n = (store.len() / 4).min(WORDS);
    let m = (label.len() / 4).min(Image::LABEL as usize);
    step_bytes_on(
        image,
        q,
        store,
        script,
        budget,
        label,
        &mut slots[..n],
        &mut ten[..m],
    )
}
