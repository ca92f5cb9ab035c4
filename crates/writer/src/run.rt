// The run: start, then step after step.
use crate::line;
use model::{Image, State};
use starting::start;
use std::io;
use stepping::take_step;

// Variables of the table writer.
const VARIABLES: usize = 2;

// What its parameter gets.
const Q: i32 = 2;

// Units for one step, and steps for a run that doesn't end by itself.
const UNITS: u32 = 100;

const STEPS: u32 = 1000;

// A step and its line; the next state, or none where the run has ended. The table writer makes no choice and receives
// nothing: its script is empty.
fn one(
    rt: &impl Print,
    image: &[u8],
    q: State,
    store: &mut [i32],
    label: &mut [i32],
) -> io::Result<Option<State>> {
    let r = take_step(image, q, store, b"", UNITS, label);
    match r {
        Ok(m) => {
            line::moved(rt, q, m, label)?;
            Ok(Some(m.next))
        }
        Err(y) => {
            line::refused(rt, y)?;
            Ok(None)
        }
    }
}

fn steps(rt: &impl Print, image: &[u8], store: &mut [i32], label: &mut [i32]) -> io::Result<()> {
    let mut q = State(0);
    for _ in 0..STEPS {
        let Some(next) = one(rt, image, q, store, label)? else {
            break;
        };
        q = next;
    }
    Ok(())
}

pub(crate) fn table_writer(rt: &impl Print, image: &[u8]) -> io::Result<()> {
    let params = [Q; 1];
    let mut store = [0i32; VARIABLES];
    let mut label = [0i32; Image::LABEL as usize];
    match start(image, &params, &mut store) {
        Err(y) => line::refused(rt, y),
        Ok(()) => {
            rt.write_all(b"state next units words gate values\n")?;
            steps(rt, image, &mut store, &mut label)?;
            line::store(rt, &store)
        }
    }
}
