// The start of an automaton: 1 to 9, then 13 to 16, and the store of an automaton that starts.
#![tactic(auto)]

ghost use Rattle.image.specs.Located.{tables};
ghost use Rattle.std.specs.Prelude.{◌≡◌, length};
ghost use Rattle.model.specs.Calls.{parameter_count, started, start};
ghost use Rattle.stages.specs.Judging.{Cleared};
ghost use Rattle.starting.specs.Starting.{given_to, right_at, parameters_verdict, condition_verdict, values_verdict, begun, counted, Slotted, SlotOf, Given, Filling, Typed, Filled, Begins};

use expressions::test;
use image::{Automaton, trailer};
use model::{Image, Refusal, Tested, Variable};
use stages::image_verdict;
use values::of_size;

// How many variables are parameters.
fn parameter_count(x: &Automaton) -> usize
    requires { Cleared x.now.image.now x.now.trailer }
    ensures { result ≡ parameter_count (tables x.now).variables }
{
    let count = x.variable_count();
    let mut n: usize = 0;
    for v in 0..count {
        n += x.parameter(v) as usize;
    }
    n
}

// What a variable starts with: a parameter with the next value given, any other undefined.
fn given(p: u16, params: &[i32], k: usize) -> i32
    requires { Given p k (length params.now) }
    ensures { result ≡ given_to p params.now k }
{
    if p == 1 { params[k] } else { Image::UNDEFINED }
}

// The store of an automaton that starts.
fn fill(x: &Automaton, params: &[i32], work: &mut [i32])
    requires { Filling x.now.image.now x.now.trailer params.now work.old }
    ensures { work.new ≡ started (tables x.now) params.now }
{
    let count = x.variable_count();
    let mut k: usize = 0;
    for v in 0..count {
        let p = x.parameter(v);
        work[v as usize] = given(p, params, k);
        k += p as usize;
    }
}

// Whether a variable is no parameter, or has a value of its type.
fn right(x: &Automaton, work: &[i32], v: u16) -> bool
    requires { SlotOf x.now.image.now x.now.trailer work.now v }
    ensures { result ≡ right_at (tables x.now) work.now v }
{
    if x.parameter(v) != 1 {
        return true;
    }
    let t = x.variable_type(v);
    of_size(Image::HALF, x.size(t), work[v as usize])
}

// 15: the lowest parameter outside its type.
fn parameter_verdict(x: &Automaton, work: &[i32]) -> Result<(), Refusal>
    requires { Slotted x.now.image.now x.now.trailer work.now }
    ensures { result ≡ parameters_verdict (tables x.now) work.now }
{
    let count = x.variable_count();
    match (0..count).find(|v| !right(x, work, *v)) {
        Some(v) => Err(Refusal::ParameterValue(Variable(v))),
        None => Ok(()),
    }
}

// 16: the initial condition.
fn condition(x: &Automaton, work: &[i32]) -> Result<(), Refusal>
    requires { Typed x.now.image.now x.now.trailer work.now }
    ensures { result ≡ condition_verdict (tables x.now) work.now }
{
    match test(x.image, x.trailer.rows, x.trailer.condition, work) {
        Tested::Holds => Ok(()),
        Tested::Fails => Err(Refusal::ConditionFalse),
        Tested::Unsure => Err(Refusal::ConditionFalse),
    }
}

// 15 and 16.
fn values_verdict(x: &Automaton, work: &[i32]) -> Result<(), Refusal>
    requires { Filled x.now.image.now x.now.trailer work.now }
    ensures { result ≡ values_verdict (tables x.now) work.now }
{
    parameter_verdict(x, work)?;
    condition(x, work)
}

// 15 and 16 on a working copy that its caller lends: a refusal leaves the store alone.
fn begin_on(
    x: &Automaton,
    params: &[i32],
    store: &mut [i32],
    work: &mut [i32],
) -> Result<(), Refusal>
    requires { Begins x.now.image.now x.now.trailer params.now store.old work.old }
    ensures { record { answer = result; store = store.new } ≡ begun (tables x.now) params.now store.old }
{
    fill(x, params, work);
    values_verdict(x, work)?;
    store.copy_from_slice(work);
    Ok(())
}

// The working copy has a function of its own, so that no other one's facts carry its 64 slots.
fn begin(x: &Automaton, params: &[i32], store: &mut [i32]) -> Result<(), Refusal>
    requires { Filling x.now.image.now x.now.trailer params.now store.old }
    ensures { record { answer = result; store = store.new } ≡ begun (tables x.now) params.now store.old }
{
    let mut work = [0i32; Image::VARIABLES as usize];
    let n = store.len();
    begin_on(x, params, store, &mut work[..n])
}

// 13 and 14, then the values.
fn count(x: &Automaton, params: &[i32], store: &mut [i32]) -> Result<(), Refusal>
    requires { Cleared x.now.image.now x.now.trailer }
    ensures { record { answer = result; store = store.new } ≡ counted (tables x.now) params.now store.old }
{
    if store.len() != x.variable_count() as usize {
        return Err(Refusal::StoreLength);
    }
    if params.len() != parameter_count(x) {
        return Err(Refusal::ParameterCount);
    }
    begin(x, params, store)
}

// The verdict on an image, parameter values and a store, and where it is accepted the store that the automaton starts with.
pub fn start(image: &[u8], params: &[i32], store: &mut [i32]) -> Result<(), Refusal>
    ensures { record { answer = result; store = store.new } ≡ start image.now params.now store.old }
{
    image_verdict(image)?;
    let x = Automaton {
        image,
        trailer: trailer(image),
    };
    count(&x, params, store)
}
