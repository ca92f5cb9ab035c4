// Speech (12): one pass over the rows, lowest first, finds how each action can end, entered quiet and entered spoken; then
// the states are judged by their actions.
#![tactic(auto)]

mod arms;
mod ways;

ghost use Rattle.image.specs.Located.{tables};
ghost use Rattle.std.specs.Prelude.{◌≡◌, ◌<◌};
ghost use Rattle.model.specs.Image.{state_count, row_count};
ghost use Rattle.model.specs.Decode.{act};
ghost use Rattle.model.specs.Speech.{well_spoken};
ghost use Rattle.speech.specs.Both.{both_of};
ghost use Rattle.speech.specs.Filled.{ways_at, Filled, Lent, Ready};
ghost use Rattle.speech.specs.Verdict.{speech_verdict, Judged};

use arms::{always, exhaustive};
use image::Automaton;
use model::{Image, Refusal, State};
use ways::Modes;

// The ways of a row from those of lower rows: an action's; for a branch or an arm, those of its list from there on, so that
// no list is walked twice.
fn row_ways(x: &Automaton, r: u16, ways: &[u8]) -> Modes
    requires { Ready x.now.image.now x.now.trailer r ways.now }
    ensures { both_of result ≡ ways_at (tables x.now) r }
{
    let w = x.fields(r);
    let code = w.code;
    match code {
        48 => Modes::kept(), // null
        49 => Modes::kept(), // assignment
        50 => Modes::kept().spoken_needs(always(x, w.b)), // any
        51 => Modes::kept(), // reset
        52 => Modes::said(), // communication
        53 => Modes::nowhere(), // to
        54 => Modes::at(ways, w.a).then(Modes::at(ways, w.b)), // ;
        55 => Modes::first(ways, w.a).spoken_needs(w.a != Image::NONE), // select
        56 => Modes::first(ways, w.b).spoken_needs(exhaustive(x, w.a, w.b)), // case
        57 => Modes::at(ways, w.a).either(Modes::first(ways, w.b)), // a branch and the next
        58 => Modes::at(ways, w.b).either(Modes::first(ways, w.c)), // an arm and the next
        59 => Modes::at(ways, w.b).while_loop(), // while
        60 => Modes::at(ways, w.b).for_loop(), // for
        _ => Modes::nowhere(), // no action: nothing asks for it
    }
}

// One pass over the rows, lowest first: a row names only lower rows.
fn fill(x: &Automaton, ways: &mut [u8])
    requires { Lent x.now.image.now x.now.trailer ways.old }
    ensures { Filled (tables x.now) (row_count x.now.trailer) ways.new }
{
    for r in 0..x.row_count() {
        ways[r as usize] = row_ways(x, r, ways).packed();
    }
}

// A state's action is entered quiet, and may not end spoken.
fn well_spoken(x: &Automaton, ways: &[u8], s: u16) -> bool
    requires { Judged x.now.image.now x.now.trailer ways.now × (s < state_count x.now.trailer) }
    ensures { result ≡ well_spoken (tables x.now) (act (tables x.now) s) }
{
    let w = Modes::at(ways, x.state_row(s));
    let quiet = w.quiet;
    quiet.right & !quiet.spoken
}

// The lowest state whose action is wrong or can end spoken.
fn judged(x: &Automaton, ways: &[u8]) -> Result<(), Refusal>
    requires { Judged x.now.image.now x.now.trailer ways.now }
    ensures { result ≡ speech_verdict (tables x.now) }
{
    let n = x.state_count();
    match (0..n).find(|s| !well_spoken(x, ways, *s)) {
        Some(s) => Err(Refusal::Speech(State(s))),
        None => Ok(()),
    }
}

// 12: a state's action does something wrong once it has spoken, or can end spoken. `ways` is lent, a byte for each row.
pub fn speech_verdict(x: &Automaton, ways: &mut [u8]) -> Result<(), Refusal>
    requires { Lent x.now.image.now x.now.trailer ways.old }
    ensures { result ≡ speech_verdict (tables x.now) }
{
    fill(x, ways);
    judged(x, ways)
}
