// The image's file.
use crate::args::{LONGEST, arg};
use crate::run::automaton;
use loading::load_image;
use std::fs::File;
use std::io;
use std::rt::{Env, Files};

// The system's words for an error, without its number.
fn reason(text: &str) -> &str {
    match text.split_once(" (os error ") {
        Some((words, _)) => words,
        None => text,
    }
}

fn fail(rt: &impl AllocGlobal, err: &impl Print, path: &[u8], e: io::Error) -> io::Result<()> {
    let text = format!(in rt.alloc(); "{e}")?;
    err.write_all(b"runner: can't read ")?;
    err.write_all(path)?;
    err.write_all(b": ")?;
    err.println(reason(text.as_str()))
}

// The bytes of the file at a path, which has to be text. An empty file gives none; one that can't be read is an error.
fn bytes(rt: &(impl Files + AllocGlobal), path: &[u8]) -> io::Result<Vec<u8>> {
    let path = io::read_to_string(rt.alloc(), path)?;
    load_image(File::open(rt, path.as_str())?, rt.alloc())
}

// The automaton in the file that an argument names.
pub(crate) fn run(
    rt: &(impl Env + Files + AllocGlobal + Print),
    err: &impl Print,
    at: usize,
    params: &[i32],
    script: &[u8],
    unchecked: bool,
) -> io::Result<()> {
    let mut path = [0u8; LONGEST];
    let n = arg(rt, at, &mut path);
    match bytes(rt, &path[..n]) {
        Ok(image) => automaton(rt, &image, params, script, unchecked),
        Err(e) => fail(rt, err, &path[..n], e),
    }
}
