// The stages 1 to 12 of check in their order, on scratch for as many rows as the image needs.
#![tactic(auto)]

ghost use Rattle.image.specs.Located.{tables};
ghost use Rattle.std.specs.Prelude.{◌≡◌, length, ◌≤◌};
ghost use Rattle.model.specs.Image.{row_count};
ghost use Rattle.masks.specs.Rows.{Lent};
ghost use Rattle.stages.specs.Judging.{tables_verdict, Ruled, Masked, Found, Flowing, Flowed, Treeing, Judged, Sized, Ruling, Checks};
ghost use Rattle.model.specs.Calls.{rules_verdict, image_verdict};

use binding::binding_verdict;
use header::header;
use image::{Automaton, trailer};
use masks::{Masks, fill};
use model::{Image, Refusal};
use rows::rows_verdict;
use sets::sets_verdict;
use speech::speech_verdict;
use typing::typing_verdict;

// Rows of the largest image.
const ROWS: usize = Image::ROWS as usize;

// 1 to 7: trailer, tables, rows.
fn tables(image: &[u8]) -> Result<(), Refusal>
    ensures { result ≡ tables_verdict image.now }
{
    header(image)?;
    let x = Automaton {
        image,
        trailer: trailer(image),
    };
    rows_verdict(&x)
}

// 8 and 9, with the masks of rows that the later stages read. On a copy of the automaton, which the compiler keeps in registers.
fn rules(x: &Automaton, masks: &mut [Masks]) -> Result<(), Refusal>
    requires { Lent x.now.image.now x.now.trailer masks.old }
    ensures { Ruled (tables x.now) (row_count x.now.trailer) result masks.new }
{
    let own = *x;
    fill(&own, masks);
    typing_verdict(&own)?;
    binding_verdict(&own, masks)
}

// 10 and 11: room for the sets, then the sets and what is read before it is set.
fn found(x: &Automaton, room: usize, masks: &[Masks], sets: &mut [u64]) -> Result<(), Refusal>
    requires { Masked x.now.image.now x.now.trailer masks.now sets.old }
    ensures { Found (tables x.now) room result sets.old sets.new }
{
    if room < x.state_count() as usize {
        return Err(Refusal::SetsShort);
    }
    sets_verdict(x, masks, sets)
}

// 10 to 12: the sets, then speech.
fn flow(
    x: &Automaton,
    room: usize,
    masks: &[Masks],
    sets: &mut [u64],
    ways: &mut [u8],
) -> Result<(), Refusal>
    requires { Flowing x.now.image.now x.now.trailer masks.now sets.old ways.old }
    ensures { Flowed (tables x.now) room result sets.old sets.new }
{
    found(x, room, masks, sets)?;
    speech_verdict(x, ways)
}

// 8 to 12, of an image free of 1 to 7.
fn trees(
    x: &Automaton,
    room: usize,
    masks: &mut [Masks],
    sets: &mut [u64],
    ways: &mut [u8],
) -> Result<(), Refusal>
    requires { Treeing x.now.image.now x.now.trailer masks.old sets.old ways.old }
    ensures { Judged (tables x.now) room result sets.old sets.new }
{
    rules(x, masks)?;
    flow(x, room, masks, sets, ways)
}

// The same on scratch for N rows.
fn judged_on<const N: usize>(x: &Automaton, room: usize, sets: &mut [u64]) -> Result<(), Refusal>
    requires sized { Sized x.now.image.now x.now.trailer N sets.old }
    requires few { N ≤ 2048 }
    ensures { Judged (tables x.now) room result sets.old sets.new }
{
    let mut masks = [Masks::NOTHING; N];
    let mut ways = [0u8; N];
    trees(x, room, &mut masks, sets, &mut ways)
}

// The same on scratch for 128 rows, for 512 or for any image: to clear it costs time, and most images are small.
fn sized(x: &Automaton, room: usize, sets: &mut [u64]) -> Result<(), Refusal>
    requires { Sized x.now.image.now x.now.trailer 2048 sets.old }
    ensures { Judged (tables x.now) room result sets.old sets.new }
{
    let n = x.row_count();
    if n <= 128 {
        return judged_on::<128>(x, room, sets);
    }
    if n <= 512 {
        return judged_on::<512>(x, room, sets);
    }
    judged_on::<ROWS>(x, room, sets)
}

// 1 to 12, with room for so many sets, which are left in the first entries lent.
pub fn judge(image: &[u8], room: usize, sets: &mut [u64]) -> Result<(), Refusal>
    requires { 64 ≤ length sets.old }
    ensures { Checks image.now room result sets.old sets.new }
{
    tables(image)?;
    let x = Automaton {
        image,
        trailer: trailer(image),
    };
    sized(&x, room, sets)
}

// 8 and 9 on scratch for N rows.
fn rules_on<const N: usize>(x: &Automaton) -> Result<(), Refusal>
    requires ruling { Ruling x.now.image.now x.now.trailer N }
    requires few { N ≤ 2048 }
    ensures { result ≡ rules_verdict (tables x.now) }
{
    let mut masks = [Masks::NOTHING; N];
    rules(x, &mut masks)
}

// 8 and 9 on scratch for 128 rows, for 512 or for any image.
fn rules_sized(x: &Automaton) -> Result<(), Refusal>
    requires { Ruling x.now.image.now x.now.trailer 2048 }
    ensures { result ≡ rules_verdict (tables x.now) }
{
    let n = x.row_count();
    if n <= 128 {
        return rules_on::<128>(x);
    }
    if n <= 512 {
        return rules_on::<512>(x);
    }
    rules_on::<ROWS>(x)
}

// 1 to 9: what every call refuses first.
pub fn image_verdict(image: &[u8]) -> Result<(), Refusal>
    ensures { result ≡ image_verdict image.now }
{
    tables(image)?;
    let x = Automaton {
        image,
        trailer: trailer(image),
    };
    rules_sized(&x)
}
