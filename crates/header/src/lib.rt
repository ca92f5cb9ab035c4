// The refusals 1 to 4: length, mark, starts and counts, entries of types and variables.
#![tactic(auto)]

ghost use Rattle.std.specs.Prelude.{◌≡◌, true, ◌≤◌, ◌<◌, length, drop};
ghost use Rattle.model.specs.Image.{length_fits, marked, trailer_of, table_fits, starts_fit, others_fit, sizes_fit, entries_fit};
ghost use Rattle.image.specs.Located.{tables, Located, header_verdict};

use image::{Automaton, trailer};
use model::{Image, Refusal};

fn length_fits(image: &[u8]) -> bool
    ensures { result ≡ length_fits image.now }
{
    if image.len() < Image::LENGTH_LEAST as usize {
        return false;
    }
    image.len() <= Image::LENGTH as usize
}

// The mark 4E 54, and the length field.
fn marked(x: &Automaton) -> bool
    requires { (length_fits x.now.image.now ≡ true) × (x.now.trailer ≡ trailer_of x.now.image.now) }
    ensures { result ≡ marked x.now.image.now }
{
    let n = x.image.len();
    if x.image[n - 2] != 0x4E {
        return false;
    }
    if x.image[n - 1] != 0x54 {
        return false;
    }
    x.trailer.length as usize == n
}

fn table_fits(start: u16, end: u16, size: u16, least: u16, most: u16) -> bool
    requires { 0 < size }
    ensures { result ≡ table_fits start end size least most }
{
    if end < start {
        return false;
    }
    let n = end - start;
    if n % size != 0 {
        return false;
    }
    if n / size < least {
        return false;
    }
    n / size <= most
}

fn starts_fit(i: Image) -> bool
    requires { 16 ≤ i.length }
    ensures { result ≡ starts_fit i }
{
    if i.types != 0 {
        return false;
    }
    if !table_fits(i.types, i.variables, 2, Image::TYPES_LEAST, Image::TYPES) {
        return false;
    }
    if !table_fits(
        i.variables,
        i.states,
        4,
        Image::VARIABLES_LEAST,
        Image::VARIABLES,
    ) {
        return false;
    }
    if !table_fits(i.states, i.rows, 2, Image::STATES_LEAST, Image::STATES) {
        return false;
    }
    if !table_fits(i.rows, i.length - 16, 8, Image::ROWS_LEAST, Image::ROWS) {
        return false;
    }
    if i.gates < Image::GATES_LEAST {
        return false;
    }
    i.gates <= Image::GATES
}

// The types from 2 on, which are neither bool nor int.
fn others_fit(x: &Automaton) -> bool
    requires { Located x.now.image.now x.now.trailer }
    ensures { result ≡ others_fit (drop 2 (tables x.now).sizes) }
{
    let n = x.type_count();
    (2..n).all(|t| {
        let k = x.size(t);
        Image::VALUES_LEAST <= k && k <= Image::VALUES
    })
}

fn sizes_fit(x: &Automaton) -> bool
    requires { Located x.now.image.now x.now.trailer }
    ensures { result ≡ sizes_fit (tables x.now).sizes }
{
    if x.size(0) != 2 {
        return false;
    }
    if x.size(1) != 0 {
        return false;
    }
    others_fit(x)
}

fn entries_fit(x: &Automaton) -> bool
    requires { Located x.now.image.now x.now.trailer }
    ensures { result ≡ entries_fit (length (tables x.now).sizes) (tables x.now).variables }
{
    let types = x.type_count();
    let n = x.variable_count();
    (0..n).all(|v| x.variable_type(v) < types && x.parameter(v) <= 1)
}

// 1 to 4, the first that is met.
pub fn header(image: &[u8]) -> Result<(), Refusal>
    ensures { result ≡ header_verdict image.now }
{
    if !length_fits(image) {
        return Err(Refusal::ImageLength);
    }
    let x = Automaton {
        image,
        trailer: trailer(image),
    };
    if !marked(&x) {
        return Err(Refusal::MarkOrLength);
    }
    if !starts_fit(x.trailer) {
        return Err(Refusal::Starts);
    }
    if !sizes_fit(&x) {
        return Err(Refusal::Entries);
    }
    if !entries_fit(&x) {
        return Err(Refusal::Entries);
    }
    Ok(())
}
