// The stored cases of check. Each line of standard input is a case, and the same line of standard output its answer:
//
//     name: room | types | variables | states | rows | trailer
//
// The last ':' ends the name, so that a name can hold an automaton's text. Room is the length of the sets buffer. The
// other sections hold 16-bit numbers, apart by blanks or commas; n is FFFF, and a number with b behind it is a single
// byte. In rows ';' ends a row and fills it with zeros to four fields. A trailer of two numbers is gates and row of the
// condition, and the rest of it is computed; one of eight numbers stands as given (21582 are the bytes 4E 54).
//
// The answer is 'accepted' and the masks of the states, or number and place. CHANGED behind it says that a word of the
// sets buffer changed that had to stay. A line that is no case gives 'bad line'. Lines that begin with '#' and empty
// lines are written as they stand. After the lines some images of zeros follow, whose lengths no line says well.
#![tactic(auto)]

mod case;

use bstr::ByteSlice;
use std::io;
use std::io::Read;

// Room for all of standard input.
const TEXT: usize = 524288;

// Lengths of images of zeros that no line says well.
const ZEROS: [usize; 9] = [0, 1, 15, 16, 37, 38, 16816, 16817, 65000];

// The reading of the lines stands in cases and in stepcases: one function of both, over a closure, is no plainer, since it
// could promise nothing of what is read or written.
fn main(rt: HostRuntime) -> io::Result<()> {
    let mut text = Vec::new(rt.alloc());
    rt.reader().take(TEXT as u64).read_to_end(&mut text)?;
    let lines: &[u8] = &text;
    for line in lines.lines_with_terminator() {
        case::line(&rt, line.strip_suffix(b"\n").unwrap_or(line))?;
    }
    if text.len() == TEXT {
        rt.write_all(b"standard input is longer than its room\n")?;
    }
    for length in ZEROS {
        case::zeros(&rt, length)?;
    }
    Ok(())
}
