// The lines that are written.
use model::{Move, Refusal, State};
use std::io;
use values::size;

// So many words from a place on, each behind a blank, and the line's end; there may be fewer.
fn words(rt: &impl Print, words: &[i32], from: usize, count: usize) -> io::Result<()> {
    for n in words.iter().skip(from).take(count) {
        print!(rt; " {n}")?;
    }
    rt.write_all(b"\n")
}

// How many values a label has: its second word says it.
fn count(label: &[i32]) -> usize {
    match label.get(1) {
        Some(n) if size(*n) <= 8 => size(*n) as usize,
        _ => 0,
    }
}

// A label: its gate and its values.
fn label(rt: &impl Print, label: &[i32]) -> io::Result<()> {
    if let Some(gate) = label.first() {
        rt.print(*gate)?;
    }
    words(rt, label, 2, count(label))
}

pub(crate) fn moved(rt: &impl Print, q: State, m: Move, words: &[i32]) -> io::Result<()> {
    print!(rt; "{} {} {} {} ", q.0, m.next.0, m.units, m.words)?;
    label(rt, words)
}

pub(crate) fn refused(rt: &impl Print, y: Refusal) -> io::Result<()> {
    println!(rt; "{} {}", y.number(), y.place())
}

pub(crate) fn store(rt: &impl Print, store: &[i32]) -> io::Result<()> {
    rt.write_all(b"store")?;
    words(rt, store, 0, store.len())
}
