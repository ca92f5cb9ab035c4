// A case's call, and its answer written.
ghost use Rattle.std.specs.Prelude.{◌≤◌, length};

use crate::answer;
use bstr::ByteSlice;
use model::State;
use sections::{Case, Section, read_case};
use starting::start;
use std::io;
use stepping::take_step;
use words::get_words;

// Bytes kept for an image and for the words given; words for parameters, a store and a label.
const IMAGE: usize = 65536;

const GIVEN: usize = 4096;

const WORDS: usize = 80;

const LABEL: usize = 16;

// What the words of a store or a label hold that no section gives.
const OLD: i32 = -286331154;

// A start: the parameters are the words given. The store is lent by its first words alone, so that a write past its end
// shows behind them.
fn begin(
    rt: &impl Print,
    image: &[u8],
    room: usize,
    store: &mut [i32],
    given: &[u8],
    before: &[i32],
) -> io::Result<()>
    requires { room ≤ length store.old }
{
    let mut params = [0i32; WORDS];
    let count = given.len() / 4;
    if WORDS < count {
        return answer::bad_line(rt);
    }
    get_words(&mut params[..count], given);
    let v = start(image, &params[..count], &mut store[..room]);
    match v {
        Err(y) => {
            answer::refused(rt, y)?;
            answer::stays(rt, store, before, 0)
        }
        Ok(()) => {
            rt.write_all(b" started")?;
            answer::words(rt, store, room)?;
            answer::stays(rt, store, before, room)
        }
    }
}

// A step, its store and its label lent in the same way.
fn step(
    rt: &impl Print,
    image: &[u8],
    c: Case,
    store: &mut [i32],
    given: &[u8],
    before: &[i32],
) -> io::Result<()>
    requires { c.store ≤ length store.old }
{
    let old = [OLD; LABEL];
    let mut label = old;
    let (Ok(q), Some(lent)) = (u16::try_from(c.state), label.get_mut(..c.label as usize)) else {
        return answer::bad_line(rt);
    };
    let r = take_step(
        image,
        State(q),
        &mut store[..c.store],
        given,
        c.budget,
        lent,
    );
    match r {
        Err(y) => {
            answer::refused(rt, y)?;
            answer::stays(rt, store, before, 0)?;
            answer::stays(rt, &label, &old, 0)
        }
        Ok(m) => {
            answer::moved(rt, m)?;
            answer::words(rt, store, c.store)?;
            answer::words(rt, &label, 10)?;
            answer::stays(rt, store, before, c.store)?;
            answer::stays(rt, &label, &old, 10)
        }
    }
}

// A line's case, its name already written. All buffers are new for each, so that no case sees another.
fn case(rt: &impl Print, sections: &[u8], first: Section) -> io::Result<()> {
    let mut image = [0u8; IMAGE];
    let mut given = [0u8; GIVEN];
    let mut store = [OLD; WORDS];
    let Some(c) = read_case(sections, first, &mut image, &mut store, &mut given) else {
        return answer::bad_line(rt);
    };
    let before = store;
    let image = &image[..c.image];
    let given = &given[..c.given];
    if first == Section::Store {
        return begin(rt, image, c.store, &mut store, given, &before);
    }
    step(rt, image, c, &mut store, given, &before)
}

// Text that is no case is written as it stands, so that the lines of input and output go together.
pub(crate) fn line(rt: &impl Print, text: &[u8]) -> io::Result<()> {
    if let None | Some(b'#') = text.first() {
        rt.write_all(text)?;
        return rt.write_all(b"\n");
    }
    let (name, call) = text.rsplit_once_str(b":").unwrap_or((text, b""));
    rt.write_all(name)?;
    rt.write_all(b":")?;
    if let Some(sections) = call.strip_prefix(b" start |") {
        case(rt, sections, Section::Store)?;
    } else if let Some(sections) = call.strip_prefix(b" step |") {
        case(rt, sections, Section::Numbers)?;
    } else {
        answer::bad_line(rt)?;
    }
    rt.write_all(b"\n")
}
