// What the lister writes: a line for each state of an accepted image, or the refusal's number and place.
#![tactic(auto)]

ghost use Rattle.std.specs.Prelude.{◌≡◌, [], ◌∷◌, ◌++◌, ◌*◌, ◌≤◌, length, take, drop, Err};
ghost use Rattle.model.specs.Image.{variable_count, state_count};
ghost use Rattle.model.specs.Exports.{decimal, lines, listed, listing};
ghost use Rattle.image.specs.Located.{tables, Located, StateOf};
ghost use Rattle.text.specs.Written.{Written};
ghost use Rattle.listing.specs.Gave.{Gave};

use image::{Automaton, trailer};
use model::{Image, Refusal};
use ntif::check;
use text::{Page, count};

// A number and the byte after it.
fn put_number(page: &mut Page<'_>, n: u16, after: u8)
    ensures { Written (decimal n (after ∷ [])) page.old page.new }
{
    page.emit_number(n);
    page.emit_byte(after);
}

// A state's line: the state, its row, the number of variables in its set.
fn put_line(x: &Automaton, q: u16, mask: u64, page: &mut Page<'_>)
    requires { StateOf x.now.image.now x.now.trailer q }
    ensures most { length (lines (tables x.now).states (variable_count x.now.trailer) q (mask ∷ [])) ≤ 18 }
    ensures line { Written (lines (tables x.now).states (variable_count x.now.trailer) q (mask ∷ [])) page.old page.new }
{
    let row = x.state_row(q);
    let defined = count(mask, (x.trailer.states - x.trailer.variables) / 4);
    put_number(page, q, b' ');
    put_number(page, row, b' ');
    put_number(page, defined, b'\n');
}

// The lines of all states.
fn put_lines(x: &Automaton, sets: &[u64], page: &mut Page<'_>)
    requires { Located x.now.image.now x.now.trailer × (state_count x.now.trailer ≤ length sets.now) }
    ensures most { length (lines (tables x.now).states (variable_count x.now.trailer) 0 (take (state_count x.now.trailer) sets.now)) ≤ 18 * state_count x.now.trailer }
    ensures lines { Written (lines (tables x.now).states (variable_count x.now.trailer) 0 (take (state_count x.now.trailer) sets.now)) page.old page.new }
{
    let states = (x.trailer.rows - x.trailer.states) / 2;
    for q in 0..states {
        put_line(x, q, sets[q as usize], page);
    }
}

// A refusal's line: its number and its place.
fn put_refusal(y: Refusal, page: &mut Page<'_>)
    ensures most { length (listed (Err y) []) ≤ 12 }
    ensures line { Written (listed (Err y) []) page.old page.new }
{
    put_number(page, y.number(), b' ');
    put_number(page, y.place(), b'\n');
}

// The listing, by what check gave with room for 64 sets.
fn put_listing(image: &[u8], v: Result<(), Refusal>, sets: &[u64], page: &mut Page<'_>)
    requires { Gave image.now v sets.now }
    ensures most { length (listing image.now) ≤ 2048 }
    ensures listing { Written (listing image.now) page.old page.new }
{
    match v {
        Err(y) => put_refusal(y, page),
        Ok(()) => {
            let x = Automaton {
                image,
                trailer: trailer(image),
            };
            page.emit(b"state row defined\n");
            put_lines(&x, sets, page);
        }
    }
}

// What the lister writes for an image, from the text's first byte on.
pub fn listing(image: &[u8], text: &mut [u8]) -> usize
    requires { 2048 ≤ length text.old }
    ensures { (result ≡ length (listing image.now)) × (text.new ≡ listing image.now ++ drop result text.old) }
{
    let mut sets = [0u64; Image::STATES as usize];
    let v = check(image, &mut sets);
    let mut page = Page::new(text);
    put_listing(image, v, &sets, &mut page);
    page.end
}
