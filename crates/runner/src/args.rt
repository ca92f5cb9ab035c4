// The program's arguments.
ghost use Rattle.std.specs.Prelude.{◌≤◌, length};

use std::env::FillError;
use std::rt::Env;

// Bytes of the longest path, and of an argument that is repeated.
pub(crate) const LONGEST: usize = 4096;

// Puts an argument's bytes into the buffer and gives their number: none where there is no such argument, or no room for it.
pub(crate) fn arg(rt: &impl Env, i: usize, word: &mut [u8]) -> usize
    ensures { result ≤ length word.new }
{
    match rt.arg(i, word) {
        Ok(n) => n,
        Err(_) => 0,
    }
}

// How many arguments there are, the program's own name among them.
pub(crate) fn arg_count(rt: &impl Env) -> usize {
    let mut none = [0u8; 0];
    for i in 0..usize::MAX {
        if let Err(FillError::NotPresent) = rt.arg(i, &mut none) {
            return i;
        }
    }
    usize::MAX
}
