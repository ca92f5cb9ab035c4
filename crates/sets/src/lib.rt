// Initialisation: the states that are reached, the largest sets that fit, and 11.
#![tactic(auto)]

mod flow;

ghost use Rattle.image.specs.Located.{tables};
ghost use Rattle.std.specs.Prelude.{◌≡◌, ◌<◌};
ghost use Rattle.model.specs.Largest.{begun};
ghost use Rattle.sets.specs.States.{Lowest, Marked, Beginning, Staged, Settled, Judged, EachState, Room, Found};

use flow::{Findings, Lent, walk};
use image::Automaton;
use masks::{Masks, bit, full, parameters, without};
use model::{Refusal, State};

// The lowest in the mask.
fn lowest(m: u64) -> u16
    requires { 0 < m }
    ensures { Lowest m result }
{
    u64::trailing_zeros(m) as u16
}

// At first the parameters at state 0, all variables elsewhere.
fn begin(x: &Automaton, top: u64, sets: &mut [u64])
    requires { Beginning x.now.image.now x.now.trailer top sets.old }
    ensures { sets.new ≡ begun (tables x.now) }
{
    sets.fill(top);
    sets[0] = parameters(x);
}

// The mask of the states that err, once s is judged.
fn mark(wrong: u64, s: u16, fine: bool) -> u64
    requires { s < 64 }
    ensures { Marked s fine wrong result }
{
    if fine {
        return without(wrong, bit(s));
    }
    wrong | bit(s)
}

// Walks until no state is due: the largest sets that fit, and the mask of the states that err with them. A state is due when
// a walked state first jumps to it, and again when its set changes.
fn settle(lent: &Lent, sets: &mut [u64]) -> u64
    requires { Staged lent.now.x.image.now lent.now.x.trailer lent.now.masks.now lent.now.top sets.old }
    ensures { Settled (tables lent.now.x) result sets.new }
{
    let mut due: u64 = 1;
    let mut walked: u64 = 0;
    let mut wrong: u64 = 0;
    while due != 0 {
        let s = lowest(due);
        let row = lent.x.state_row(s);
        let led = lent.masks[row as usize].leads;
        let set = sets[s as usize];
        let mut found = Findings {
            moved: 0,
            fine: true,
        };
        walk(lent, row, set, sets, &mut found);
        let here = bit(s);
        walked = walked | here;
        due = without(due, here) | (led & found.moved) | without(led, walked);
        wrong = mark(wrong, s, found.fine);
    }
    wrong
}

// The sets and 11, with the masks of every row and no more, and a set for each state.
fn initialisation(x: &Automaton, masks: &[Masks], sets: &mut [u64]) -> Result<(), Refusal>
    requires { EachState x.now.image.now x.now.trailer masks.now sets.old }
    ensures { Judged (tables x.now) result sets.new }
{
    let top = full(x.variable_count());
    begin(x, top, sets);
    let wrong = settle(&Lent { x: *x, masks, top }, sets);
    if wrong == 0 {
        return Ok(());
    }
    Err(Refusal::Initialisation(State(lowest(wrong))))
}

// The largest sets that fit, in the first entries lent, and 11 judged with them.
pub fn sets_verdict(x: &Automaton, masks: &[Masks], sets: &mut [u64]) -> Result<(), Refusal>
    requires { Room x.now.image.now x.now.trailer masks.now sets.old }
    ensures { Found (tables x.now) result sets.old sets.new }
{
    let rows = x.row_count() as usize;
    let states = x.state_count() as usize;
    initialisation(x, &masks[..rows], &mut sets[..states])
}
