// The run: check, start, then step after step.
ghost use Rattle.std.specs.Prelude.{◌≤◌};

use crate::line;
use image::{Automaton, trailer};
use model::{Image, Move, State};
use ntif::{check, start, step};
use std::io;

// Steps of a run that doesn't end by itself.
const STEPS: u32 = 1000;

const VARIABLES: usize = Image::VARIABLES as usize;

// The variables that the trailer says; what it says wrong is refused before they are counted.
fn variables(image: &[u8]) -> usize
    ensures { result ≤ 64 }
{
    if image.len() < 16 {
        return 0;
    }
    let x = Automaton {
        image,
        trailer: trailer(image),
    };
    if x.trailer.states < x.trailer.variables {
        return 0;
    }
    let n = ((x.trailer.states - x.trailer.variables) / 4) as usize;
    if VARIABLES < n {
        return VARIABLES;
    }
    n
}

// A step with what is left of the script, and its line; the move, or none where the step was refused.
fn one(
    rt: &impl Print,
    image: &[u8],
    q: State,
    store: &mut [i32],
    script: &[u8],
    label: &mut [i32],
) -> io::Result<Option<Move>> {
    line::at(rt, q)?;
    let r = step(image, q, store, script, Image::BUDGET, label);
    match r {
        Ok(m) => {
            line::moved(rt, m, label)?;
            Ok(Some(m))
        }
        Err(y) => {
            line::refused(rt, y)?;
            Ok(None)
        }
    }
}

// Step after step until one is refused; then what is left of the script.
fn steps(
    rt: &impl Print,
    image: &[u8],
    store: &mut [i32],
    script: &[u8],
    label: &mut [i32],
) -> io::Result<()> {
    let mut q = State(0);
    let mut rest = script;
    for _ in 0..STEPS {
        let Some(m) = one(rt, image, q, store, rest, label)? else {
            return line::left(rt, rest);
        };
        q = m.next;
        rest = rest.get(4 * m.words as usize..).unwrap_or(b"");
    }
    rt.write_all(b"no refusal in 1000 steps\n")?;
    line::left(rt, rest)
}

fn begin(
    rt: &impl Print,
    image: &[u8],
    params: &[i32],
    store: &mut [i32],
    script: &[u8],
) -> io::Result<()> {
    let mut label = [0i32; Image::LABEL as usize];
    let v = start(image, params, store);
    match v {
        Err(y) => {
            rt.write_all(b"start: ")?;
            line::refused(rt, y)
        }
        Ok(()) => {
            steps(rt, image, store, script, &mut label)?;
            line::store(rt, store)
        }
    }
}

// Whether the run goes on after check.
fn checked(rt: &impl Print, image: &[u8], unchecked: bool) -> io::Result<bool> {
    let mut sets = [0u64; Image::STATES as usize];
    let v = check(image, &mut sets);
    rt.write_all(b"check: ")?;
    match v {
        Ok(()) => {
            rt.write_all(b"accepted\n")?;
            Ok(true)
        }
        Err(y) => {
            line::refused(rt, y)?;
            Ok(unchecked)
        }
    }
}

pub(crate) fn automaton(
    rt: &impl Print,
    image: &[u8],
    params: &[i32],
    script: &[u8],
    unchecked: bool,
) -> io::Result<()> {
    let mut store = [0i32; VARIABLES];
    let n = variables(image);
    if checked(rt, image, unchecked)? {
        begin(rt, image, params, &mut store[..n], script)?;
    }
    Ok(())
}
