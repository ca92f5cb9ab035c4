// The actions that hold no other: null, assignment, any, reset, communication, jump.
#![tactic(auto)]

ghost use Rattle.image.specs.Located.{tables};
ghost use Rattle.std.specs.Prelude.{◌≡◌};
ghost use Rattle.model.specs.Image.{trailer_of, tables_of};
ghost use Rattle.model.specs.Decode.{action_at, act_of, gets_at};
ghost use Rattle.model.specs.Run.{assigning, exec_act};
ghost use Rattle.actions.specs.State.{state_of, result_of};
ghost use Rattle.told.specs.Told.{Leaves};
ghost use Rattle.simple.specs.Simple.{Simple, Worded, Assigning, Assigned};

use actions::{Ran, Run, assign, choose, reset};
use expressions::row;
use image::{Automaton, trailer};
use model::{Outcome, Refusal, Row, State};
use offers::communicate;
use told::{ENDS, Values, stopped, told};

// 49, R11: nothing but the store changes.
fn run_assign(image: &[u8], rows: u16, r: u16, first: u16, store: &mut [i32]) -> u32
    requires { Assigning image.now rows r first store.old }
    ensures { Assigned result store.old store.new (assigning (tables_of image.now) (gets_at (tables_of image.now) first) r) }
{
    if assign(image, rows, first, store) {
        return ENDS;
    }
    stopped(Refusal::Undefined(Row(r)))
}

// Any and communication, which read words.
fn read_on(
    x: &Automaton,
    r: u16,
    store: &mut [i32],
    script: &[u8],
    values: &mut [i32],
    run: Run,
) -> Ran
    requires { Worded x.now.image.now x.now.trailer r store.old values.old }
    ensures { result_of result store.new values.new ≡ exec_act (tables x.now) (act_of (action_at (tables x.now) r)) script.now r (state_of run store.old values.old) }
{
    let w = row(x.image, x.trailer.rows, r);
    if w.code == 50 {
        return choose(x, r, w, store, script, run);
    }
    communicate(x, r, w, store, script, values, run)
}

// The same, with the run's state taken and put back.
fn run_worded(
    image: &[u8],
    r: u16,
    store: &mut [i32],
    script: &&[u8],
    values: &mut Values,
    run: &mut Run,
) -> u32
    requires { Worded image.now (trailer_of image.now) r store.old values.old }
    ensures { Leaves result run.new store.old store.new values.old values.new (exec_act (tables_of image.now) (act_of (action_at (tables_of image.now) r)) script.now.now r (state_of run.old store.old values.old)) }
{
    let x = Automaton {
        image,
        trailer: trailer(image),
    };
    let now = *run;
    let q = read_on(&x, r, store, *script, values, now);
    *run = q.run;
    let out = q.out;
    told(out)
}

// Words are read by a call from two places: the compiler then keeps its frame out of each level's.
pub fn run_simple(
    image: &[u8],
    rows: u16,
    r: u16,
    store: &mut [i32],
    script: &&[u8],
    values: &mut Values,
    run: &mut Run,
) -> u32
    requires { Simple image.now rows r store.old values.old }
    ensures { Leaves result run.new store.old store.new values.old values.new (exec_act (tables_of image.now) (act_of (action_at (tables_of image.now) r)) script.now.now r (state_of run.old store.old values.old)) }
{
    let w = row(image, rows, r);
    let code = w.code;
    match code {
        49 => run_assign(image, rows, r, w.a, store),
        50 => run_worded(image, r, store, script, values, run),
        51 => {
            reset(image, rows, w.a, store);
            ENDS
        }
        52 => run_worded(image, r, store, script, values, run),
        53 => told(Outcome::Jumps(State(w.a))),
        _ => ENDS,
    }
}
