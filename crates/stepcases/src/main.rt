// The stored cases of start and step. Each line of standard input is a case, and the same line of standard output its
// answer:
//
//     name: start | store | parameters | types | variables | states | rows | trailer
//     name: step | state budget label | store | script | types | variables | states | rows | trailer
//
// The last ':' ends the name, so that a name can hold an automaton's text. Label is the length of the label buffer. Store,
// parameters and script are signed words, u is 65,536, which in a store is undefined, and a number with b behind it is a
// single byte. The image's sections hold 16-bit numbers, negative ones in two's complement; n is FFFF, and ';' ends a row
// and fills it with zeros to four fields. Numbers stand apart by blanks or commas. A trailer of two numbers is gates and
// row of the condition, and the rest of it is computed; one of eight numbers stands as given (21582 are the bytes 4E 54).
//
// The answer is number and place; or 'started' and the store; or 'moved', next state, units and words, the store and the
// label. CHANGED behind it says that a word changed that had to stay. A line that is no case gives 'bad line'. Lines that
// begin with '#' and empty lines are written as they stand.
#![tactic(auto)]

mod answer;
mod calls;

use bstr::ByteSlice;
use std::io;
use std::io::Read;

// Room for all of standard input.
const TEXT: usize = 524288;

// The reading of the lines stands in cases and in stepcases: one function of both, over a closure, is no plainer, since it
// could promise nothing of what is read or written.
fn main(rt: HostRuntime) -> io::Result<()> {
    let mut text = Vec::new(rt.alloc());
    rt.reader().take(TEXT as u64).read_to_end(&mut text)?;
    let lines: &[u8] = &text;
    for line in lines.lines_with_terminator() {
        calls::line(&rt, line.strip_suffix(b"\n").unwrap_or(line))?;
    }
    if text.len() == TEXT {
        rt.write_all(b"standard input is longer than its room\n")?;
    }
    Ok(())
}
