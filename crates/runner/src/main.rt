// Runs an automaton from its start with the words of a script, and says what each step does:
//
//     runner [--unchecked] IMAGE [PARAMETER...] [-- WORD...]
//
// It checks the image, starts it with the parameters and makes steps, each fed with the words that the steps before it
// left over, until one is refused. What keeps it from that is said on standard error.
#![tactic(auto)]

mod args;
mod asked;
mod line;
mod load;
mod run;
mod usage;

use ended::ended;
use std::io;

// Bytes of the longest option, and one more: a longer word is none.
const OPTION: usize = 12;

fn main(rt: HostRuntime) -> io::Result<()> {
    let err = rt.stderr();
    let mut word = [0u8; OPTION];
    let n = args::arg(&rt, 1, &mut word);
    let count = args::arg_count(&rt);
    ended(match asked::option(&word[..n]) {
        asked::Wish::Help => usage::usage(&rt),
        asked::Wish::Unchecked if count < 3 => usage::usage(&err),
        asked::Wish::Unchecked => asked::automaton(&rt, &err, 2, count, true),
        asked::Wish::Checked if count < 2 => usage::usage(&err),
        asked::Wish::Checked => asked::automaton(&rt, &err, 1, count, false),
    })
}
