// A step: its refusals in their order, one attempt on a working copy, and what is written back where it moves.
#![tactic(auto)]

ghost use Rattle.image.specs.Located.{tables};
ghost use Rattle.std.specs.Prelude.{◌≡◌};
ghost use Rattle.model.specs.Calls.{slot_fits, attempt, moved_as, step};
ghost use Rattle.actions.specs.State.{result_of};
ghost use Rattle.finishing.specs.Finishing.{Finishes};
ghost use Rattle.stages.specs.Judging.{Cleared};
ghost use Rattle.stepping.specs.Stepping.{Slotted, SlotIn, slots_verdict, run_verdict, ran, Trying, Tried, Steps, Runs};

use actions::{Ran, Run};
use finishing::finish;
use image::{Automaton, trailer};
use machine::run_action;
use model::{Image, Move, Refusal, State, Variable};
use stages::image_verdict;
use told::{Values, outcome};
use values::of_size;

// Whether a slot is undefined or of its variable's type.
fn slot_fits(x: &Automaton, store: &[i32], v: u16) -> bool
    requires { SlotIn x.now.image.now x.now.trailer store.now v }
    ensures { result ≡ slot_fits (tables x.now) store.now v }
{
    let z = store[v as usize];
    if z == Image::UNDEFINED {
        return true;
    }
    of_size(Image::HALF, x.size(x.variable_type(v)), z)
}

// 18: the lowest slot that doesn't.
fn slots_verdict(x: &Automaton, store: &[i32]) -> Result<(), Refusal>
    requires { Slotted x.now.image.now x.now.trailer store.now }
    ensures { result ≡ slots_verdict (tables x.now) store.now }
{
    let n = x.variable_count();
    match (0..n).find(|v| !slot_fits(x, store, *v)) {
        Some(v) => Err(Refusal::SlotValue(Variable(v))),
        None => Ok(()),
    }
}

// 17, 13, 18, 19, 20.
fn run_verdict(
    x: &Automaton,
    q: State,
    store: &[i32],
    budget: u32,
    label: &[i32],
) -> Result<(), Refusal>
    requires { Cleared x.now.image.now x.now.trailer }
    ensures { result ≡ run_verdict (tables x.now) q store.now budget label.now }
{
    if x.state_count() <= q.0 {
        return Err(Refusal::NoState);
    }
    if store.len() != x.variable_count() as usize {
        return Err(Refusal::StoreLength);
    }
    slots_verdict(x, store)?;
    if label.len() < Image::LABEL as usize {
        return Err(Refusal::LabelShort);
    }
    if Image::BUDGET < budget {
        return Err(Refusal::BudgetOver);
    }
    Ok(())
}

// The run of the state's action, from nothing read, nothing used and nothing said.
fn try_step(
    x: &Automaton,
    q: u16,
    work: &mut &mut [i32],
    script: &[u8],
    values: &mut Values,
    budget: u32,
) -> Ran
    requires { Trying x.now.image.now x.now.trailer q work.old.now values.old budget }
    ensures { Tried result work.old.now work.new.now values.old values.new (attempt (tables x.now) q work.old.now script.now budget) }
{
    let mut run = Run {
        words: 0,
        left: budget as usize,
        spoken: false,
        gate: 0,
        count: 0,
    };
    let r = x.state_row(q);
    let n = run_action(&x.image, x.trailer.rows, r, work, &script, values, &mut run);
    Ran {
        out: outcome(n),
        run: run,
    }
}

// finish where the working copy and the values are lent to be changed, and aren't.
fn finish_on(
    ran: Ran,
    at: u16,
    budget: u32,
    store: &mut [i32],
    label: &mut [i32],
    work: &mut [i32],
    values: &mut [i32],
) -> Result<Move, Refusal>
    requires { Finishes ran budget store.old label.old work.old values.old }
    ensures { record { answer = result; store = store.new; label = label.new } ≡ moved_as (result_of ran work.old values.old) at budget store.old label.old }
{
    finish(ran, at, budget, store, label, work, values)
}

// A step that nothing refuses, with a working copy and room for a label's values that its caller lends.
fn step_on(
    x: &Automaton,
    q: State,
    store: &mut [i32],
    script: &[u8],
    budget: u32,
    label: &mut [i32],
    work: &mut &mut [i32],
    values: &mut Values,
) -> Result<Move, Refusal>
    requires { Steps x.now.image.now x.now.trailer q store.old budget label.old work.old.now values.old }
    ensures { record { answer = result; store = store.new; label = label.new } ≡ ran (tables x.now) q store.old script.now budget label.old }
{
    work.copy_from_slice(store);
    let p = try_step(x, q.0, work, script, values, budget);
    let at = x.state_row(q.0);
    finish_on(p, at, budget, store, label, *work, values)
}

fn run_step(
    x: &Automaton,
    q: State,
    store: &mut [i32],
    script: &[u8],
    budget: u32,
    label: &mut [i32],
) -> Result<Move, Refusal>
    requires { Runs x.now.image.now x.now.trailer q store.old budget label.old }
    ensures { record { answer = result; store = store.new; label = label.new } ≡ ran (tables x.now) q store.old script.now budget label.old }
{
    let mut work = [0i32; Image::VARIABLES as usize];
    let mut values = [0i32; Image::VECTOR as usize];
    let n = store.len();
    step_on(
        x,
        q,
        store,
        script,
        budget,
        label,
        &mut &mut work[..n],
        &mut values,
    )
}

// The step: 1 to 9, then 17, 13, 18, 19, 20, then the run.
pub fn take_step(
    image: &[u8],
    q: State,
    store: &mut [i32],
    script: &[u8],
    budget: u32,
    label: &mut [i32],
) -> Result<Move, Refusal>
    ensures { record { answer = result; store = store.new; label = label.new } ≡ step image.now q store.old script.now budget label.old }
{
    image_verdict(image)?;
    let x = Automaton {
        image,
        trailer: trailer(image),
    };
    run_verdict(&x, q, store, budget, label)?;
    run_step(&x, q, store, script, budget, label)
}
