// What a case's line says behind its name.
use model::{Image, Move, Refusal};
use std::io;

pub(crate) fn bad_line(rt: &impl Print) -> io::Result<()> {
    rt.write_all(b" bad line")
}

// Words behind a bar, as many as said; the mark of an undefined variable is u.
pub(crate) fn words(rt: &impl Print, s: &[i32], count: usize) -> io::Result<()> {
    rt.write_all(b" |")?;
    for n in s.iter().take(count) {
        if *n == Image::UNDEFINED {
            rt.write_all(b" u")?;
        } else {
            print!(rt; " {n}")?;
        }
    }
    Ok(())
}

pub(crate) fn refused(rt: &impl Print, y: Refusal) -> io::Result<()> {
    print!(rt; " {} {}", y.number(), y.place())
}

pub(crate) fn moved(rt: &impl Print, m: Move) -> io::Result<()> {
    print!(rt; " moved {} {} {}", m.next.0, m.units, m.words)
}

// Words from a place on that had to stay.
pub(crate) fn stays(rt: &impl Print, s: &[i32], before: &[i32], from: usize) -> io::Result<()> {
    if s.iter().zip(before).skip(from).any(|(n, old)| *n != *old) {
        return rt.write_all(b" CHANGED");
    }
    Ok(())
}
