// The lines that are written.
use model::{Image, Move, Refusal, State};
use std::io;
use values::size;

// The words of the store; an undefined one is u.
pub(crate) fn store(rt: &impl Print, words: &[i32]) -> io::Result<()> {
    rt.write_all(b"store:")?;
    for n in words {
        if *n == Image::UNDEFINED {
            rt.write_all(b" u")?;
        } else {
            print!(rt; " {n}")?;
        }
    }
    rt.write_all(b"\n")
}

// What a refusal's place is.
fn place(y: Refusal) -> &'static str {
    match y {
        Refusal::NoCondition(_) => "the condition, place ",
        _ => match y.number() {
            5 | 7..=9 | 21..=27 => "row ",
            6 | 11 | 12 => "state ",
            15 | 18 => "variable ",
            _ => "",
        },
    }
}

pub(crate) fn refused(rt: &impl Print, y: Refusal) -> io::Result<()> {
    println!(rt; "refused, {} at {}{}", y.number(), place(y), y.place())
}

// A label: its gate and its values, whose number is the second word.
fn label(rt: &impl Print, words: &[i32]) -> io::Result<()> {
    let Some(gate) = words.first() else {
        return Ok(());
    };
    if *gate < 0 {
        return rt.write_all(b"no communication");
    }
    print!(rt; "gate {gate}")?;
    let count = words.get(1).map_or(0, |n| size(*n) as usize);
    for n in words.iter().skip(2).take(count) {
        print!(rt; " {n}")?;
    }
    Ok(())
}

pub(crate) fn at(rt: &impl Print, q: State) -> io::Result<()> {
    print!(rt; "state {}: ", q.0)
}

pub(crate) fn moved(rt: &impl Print, m: Move, words: &[i32]) -> io::Result<()> {
    label(rt, words)?;
    println!(rt; ", to {}, units {}, words {}", m.next.0, m.units, m.words)
}

// What of the script no step has read.
pub(crate) fn left(rt: &impl Print, script: &[u8]) -> io::Result<()> {
    let words = script.len() / 4;
    if words == 0 {
        return Ok(());
    }
    println!(rt; "words left over: {words}")
}
