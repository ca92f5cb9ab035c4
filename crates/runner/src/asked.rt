// What the arguments ask for.
ghost use Rattle.std.specs.Prelude.{◌≤◌, length, IfOk, IfSome};

use crate::args::{LONGEST, arg};
use crate::load;
use numerals::{Word, read};
use std::io;
use std::rt::{Env, Files};
use words::put_words;

// The first argument: help, or whether check may refuse.
#[derive(Clone, Copy)]
pub enum Wish {
    Help,
    Unchecked,
    Checked,
}

// Parameters of the image with the most, and one more; words of a script.
const PARAMETERS: usize = 65;

const WORDS: usize = 1024;

pub(crate) fn option(word: &[u8]) -> Wish {
    match word {
        b"-h" | b"--help" => Wish::Help,
        b"--unchecked" => Wish::Unchecked,
        _ => Wish::Checked,
    }
}

fn argument(rt: &impl Env, i: usize) -> Word {
    let mut word = [0u8; 16];
    let n = arg(rt, i, &mut word);
    read(&word[..n])
}

fn complain(rt: &impl Env, err: &impl Print, what: &[u8], i: usize) -> io::Result<()> {
    let mut word = [0u8; LONGEST];
    let n = arg(rt, i, &mut word);
    err.write_all(b"runner: ")?;
    err.write_all(what)?;
    err.write_all(&word[..n])?;
    err.write_all(b"\n")
}

// Numbers taken from the arguments: how many, and where the reading ended.
#[derive(Clone, Copy)]
struct Taken {
    count: usize,
    next: usize,
}

// The numbers from an argument on, up to two dashes or the last argument; none where it's said already what is wrong.
fn numbers(
    rt: &impl Env,
    err: &impl Print,
    from: usize,
    end: usize,
    given: &mut [i32],
) -> io::Result<Option<Taken>>
    ensures { IfOk result (λ r. IfSome r (λ t. t.count ≤ length given.old)) }
{
    let mut count = 0;
    for i in from..end {
        match argument(rt, i) {
            Word::Number(z) => {
                if given.len() <= count {
                    complain(rt, err, b"too many numbers, from this one on: ", i)?;
                    return Ok(None);
                }
                given[count] = z;
                count += 1;
            }
            Word::Dashes => return Ok(Some(Taken { count, next: i })),
            Word::Neither => {
                complain(rt, err, b"no number of 32 bits: ", i)?;
                return Ok(None);
            }
        }
    }
    Ok(Some(Taken { count, next: end }))
}

// The script's words, behind the two dashes at an argument, in bytes.
fn script(
    rt: &impl Env,
    err: &impl Print,
    at: usize,
    end: usize,
    bytes: &mut [u8],
) -> io::Result<Option<Taken>>
    requires { 4096 ≤ length bytes.old }
    ensures { IfOk result (λ r. IfSome r (λ t. t.count ≤ 1024)) }
{
    let mut given = [0i32; WORDS];
    if end <= at {
        return Ok(Some(Taken { count: 0, next: at }));
    }
    let s = numbers(rt, err, at + 1, end, &mut given)?;
    if let Some(t) = s {
        put_words(bytes, &given[..t.count]);
    }
    Ok(s)
}

// The automaton that an argument names, with the numbers behind it.
pub(crate) fn automaton(
    rt: &(impl Env + Files + AllocGlobal + Print),
    err: &impl Print,
    at: usize,
    end: usize,
    unchecked: bool,
) -> io::Result<()> {
    let mut params = [0i32; PARAMETERS];
    let mut bytes = [0u8; 4 * WORDS];
    if end <= at {
        return Ok(());
    }
    let Some(p) = numbers(rt, err, at + 1, end, &mut params)? else {
        return Ok(());
    };
    let Some(s) = script(rt, err, p.next, end, &mut bytes)? else {
        return Ok(());
    };
    if s.next < end {
        return complain(rt, err, b"a second script: ", s.next);
    }
    load::run(
        rt,
        err,
        at,
        &params[..p.count],
        &bytes[..4 * s.count],
        unchecked,
    )
}
