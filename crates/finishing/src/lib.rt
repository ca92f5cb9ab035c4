// What a step writes back where it moves, and what it answers.
#![tactic(auto)]

ghost use Rattle.std.specs.Prelude.{◌≡◌, ◌++◌, ◌≤◌, ◌<◌, pos, length, get_or, drop};
ghost use Rattle.model.specs.Run.{label_words};
ghost use Rattle.model.specs.Calls.{moved_as};
ghost use Rattle.actions.specs.State.{label_of, result_of};
ghost use Rattle.finishing.specs.Finishing.{Finishes};

use actions::{Ran, Run, blocked_at};
use model::{Move, Outcome, Refusal};

// Word k of a label: its gate (-1 where nothing was said), the number of its values, the values, then zeros.
fn label_word(values: &[i32], run: Run, k: usize) -> i32
    requires { (k < 10) × (length values.now ≡ 8) }
    ensures { result ≡ get_or (label_words (label_of run values.now)) k (pos 0) }
{
    if !run.spoken {
        if k == 0 {
            return -1;
        }
        return 0;
    }
    if k == 0 {
        return run.gate as i32;
    }
    if k == 1 {
        if 8 < run.count {
            return 8;
        }
        return run.count as i32;
    }
    if k - 2 < run.count as usize {
        return values[k - 2];
    }
    0
}

// The ten words of a label; later words stay.
pub fn put_label(label: &mut [i32], values: &[i32], run: Run)
    requires { (10 ≤ length label.old) × (length values.now ≡ 8) }
    ensures { label.new ≡ label_words (label_of run values.now) ++ drop 10 label.old }
{
    for (k, word) in label[..10].iter_mut().enumerate() {
        *word = label_word(values, run, k);
    }
}

// A run's result told: only a jump moves, and writes the store and the label; an end without one is blocked at the state's row.
pub fn finish(
    ran: Ran,
    at: u16,
    budget: u32,
    store: &mut [i32],
    label: &mut [i32],
    work: &[i32],
    values: &[i32],
) -> Result<Move, Refusal>
    requires { Finishes ran budget store.old label.old work.now values.now }
    ensures { record { answer = result; store = store.new; label = label.new } ≡ moved_as (result_of ran work.now values.now) at budget store.old label.old }
{
    let out = ran.out;
    match out {
        Outcome::Ends => Err(blocked_at(at, ran.run.spoken)),
        Outcome::Stops(y) => Err(y),
        Outcome::Jumps(t) => {
            store.copy_from_slice(work);
            put_label(label, values, ran.run);
            Ok(Move {
                next: t,
                words: ran.run.words as u32,
                units: budget - ran.run.left as u32,
            })
        }
    }
}
