// A case run, and its answer written.
ghost use Rattle.std.specs.Prelude.{◌≤◌, length, IfSome};

use bstr::ByteSlice;
use model::Refusal;
use sections::{Case, Section, read_case};
use std::io;

// Bytes kept for an image, and words for its sets.
const IMAGE: usize = 65536;

const SETS: usize = 128;

// What every word of the sets buffer holds before a call.
const OLD: u64 = 12297829382473034410;

fn bad_line(rt: &impl Print) -> io::Result<()> {
    rt.write_all(b": bad line\n")
}

// The rest of the answer's line, and how many words of the sets buffer may have changed.
fn answer(
    rt: &impl Print,
    v: Result<(), Refusal>,
    sets: &[u64],
    states: usize,
) -> io::Result<usize> {
    match v {
        Ok(()) => {
            rt.write_all(b": accepted")?;
            for mask in sets.iter().take(states) {
                print!(rt; " {mask}")?;
            }
            Ok(states)
        }
        Err(y) => {
            print!(rt; ": {} {}", y.number(), y.place())?;
            Ok(0)
        }
    }
}

// The call gets the first words of sets alone, so that a write past its room shows behind them.
fn judged(
    rt: &impl Print,
    image: &[u8],
    sets: &mut [u64],
    room: usize,
    states: usize,
) -> io::Result<()> {
    let Some(lent) = sets.get_mut(..room) else {
        return bad_line(rt);
    };
    let v = ntif::check(image, lent);
    let from = answer(rt, v, sets, states)?;
    if sets.iter().skip(from).any(|mask| *mask != OLD) {
        rt.write_all(b" CHANGED")?;
    }
    rt.write_all(b"\n")
}

// The case of a line; it has no negative numbers, no store and no words.
fn read(sections: &[u8], image: &mut [u8]) -> Option<Case>
    ensures { IfSome result (λ c. c.image ≤ length image.new) }
{
    if sections.contains(&b'-') {
        return None;
    }
    read_case(
        sections,
        Section::Room,
        image,
        &mut [0i32; 0],
        &mut [0u8; 0],
    )
}

// A line's case, its name already written. Both buffers are new for each, so that no case sees another.
fn case(rt: &impl Print, sections: &[u8]) -> io::Result<()> {
    let mut image = [0u8; IMAGE];
    let mut sets = [OLD; SETS];
    match read(sections, &mut image) {
        Some(c) => judged(rt, &image[..c.image], &mut sets, c.room as usize, c.states),
        None => bad_line(rt),
    }
}

// Text that is no case is written as it stands, so that the lines of input and output go together.
pub(crate) fn line(rt: &impl Print, text: &[u8]) -> io::Result<()> {
    if let None | Some(b'#') = text.first() {
        rt.write_all(text)?;
        return rt.write_all(b"\n");
    }
    let (name, sections) = text.rsplit_once_str(b":").unwrap_or((text, b""));
    rt.write_all(name)?;
    case(rt, sections)
}

// An image of zeros, with room for all states.
pub(crate) fn zeros(rt: &impl Print, length: usize) -> io::Result<()>
    requires { length ≤ 65536 }
{
    let image = [0u8; IMAGE];
    let mut sets = [OLD; SETS];
    print!(rt; "zeros of length {length}")?;
    judged(rt, &image[..length], &mut sets, 64, 0)
}
