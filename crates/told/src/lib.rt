// What the run of an action hands on from row to row: its state, lent, and how it ended as a number. An Outcome as the result
// was tried and is slower (measured): it goes through memory at each row, in and out.
#![tactic(auto)]

ghost use Rattle.std.specs.Prelude.{◌≡◌, ◌+◌, ◌≤◌, ◌<◌, ◌^◌};
ghost use Rattle.model.specs.declared.{Outcome.TheVariants.Stops};
ghost use Rattle.model.specs.Answers.{number};
ghost use Rattle.actions.specs.State.{run_at};
ghost use Rattle.told.specs.Told.{charged, refusal_of, outcome_of, OfRun, Tells};

use actions::Run;
use model::{Image, Outcome, Refusal, Row, State};

// Room for a label's values.
pub type Values = [i32; Image::VECTOR as usize];

// An action that ended. An enum for how it ended was tried: runs were 18 to 30 percent slower (docs/DECISIONS.md, 62).
pub const ENDS: u32 = 0;

// The least number of one that stopped.
const STOPS: u32 = 131072;

// A refusal of the run as a number.
pub fn stopped(y: Refusal) -> u32
    requires { 21 ≤ number y }
    ensures { Tells result (Stops y) }
{
    y.number() as u32 * STOPS + y.place() as u32
}

// An outcome as a number.
pub fn told(out: Outcome) -> u32
    requires { OfRun out }
    ensures { Tells result out }
{
    match out {
        Outcome::Ends => ENDS,
        Outcome::Jumps(q) => 1 + q.0 as u32,
        Outcome::Stops(y) => stopped(y),
    }
}

fn refusal(number: u32, r: Row) -> Refusal
    ensures { result ≡ refusal_of number r }
{
    match number {
        21 => Refusal::Blocked(r),
        22 => Refusal::Undefined(r),
        23 => Refusal::ScriptEnded(r),
        24 => Refusal::WordOutOfRange(r),
        25 => Refusal::BudgetSpent(r),
        26 => Refusal::BlockedSpoken(r),
        _ => Refusal::SecondCommunication(r),
    }
}

// An outcome from its number.
pub fn outcome(n: u32) -> Outcome
    ensures { result ≡ outcome_of n }
{
    if n == ENDS {
        return Outcome::Ends;
    }
    if n < STOPS {
        return Outcome::Jumps(State(((n - 1) % 65536) as u16));
    }
    Outcome::Stops(refusal(n / STOPS, Row((n % 65536) as u16)))
}

// One unit less.
pub fn charge(run: &mut Run)
    requires { 1 ≤ run.old.left }
    ensures { run.new ≡ charged run.old }
{
    run.left -= 1;
}

// One word more.
pub fn hear(run: &mut Run)
    requires { run.old.words + 1 < 2 ^ 64 }
    ensures { run.new ≡ run_at run.old (run.old.words + 1) }
{
    run.words += 1;
}
