// Stored cases: a line's sections read into an image, a store and the words given.
//
// Numbers stand apart by blanks or commas; n is FFFF, u is 65,536, and a number with b behind it is a single byte. Those of
// an image have 16 bits. In rows ';' ends a row and fills it with zeros to four fields. A trailer of two numbers is gates
// and row of the condition, and the rest of it is computed; one of eight numbers stands as given (21582 are the bytes
// 4E 54).
#![tactic(auto)]

ghost use Rattle.std.specs.Prelude.{◌≤◌, length, IfSome};

mod put;
mod reading;

use reading::Reading;

// A line's sections in their order. A case begins with the room of check's sets buffer, with a step's numbers (state, budget
// and length of the label), or with a start's store.
#[derive(Clone, Copy, PartialEq, Eq)]
pub enum Section {
    Room,
    Numbers,
    Store,
    Given,
    Types,
    Variables,
    States,
    Rows,
    Trailer,
}

impl Section {
    fn next(self) -> Option<Section> {
        match self {
            Section::Numbers => Some(Section::Store),
            Section::Store => Some(Section::Given),
            Section::Room | Section::Given => Some(Section::Types),
            Section::Types => Some(Section::Variables),
            Section::Variables => Some(Section::States),
            Section::States => Some(Section::Rows),
            Section::Rows => Some(Section::Trailer),
            Section::Trailer => None,
        }
    }

    // Whether its numbers have 16 bits.
    fn is_narrow(self) -> bool {
        !matches!(self, Section::Numbers | Section::Store | Section::Given)
    }
}

// What a line says beside what its sections hold.
#[derive(Clone, Copy, Default)]
pub struct Case {
    pub room: u32,
    pub state: u32,
    pub budget: u32,
    pub label: u32,
    // Words of the store, bytes of the words given and of the image.
    pub store: usize,
    pub given: usize,
    pub image: usize,
    // The number of the image's states.
    pub states: usize,
}

// The case whose sections these are, or none where they are not of the form or have no room. Image and words given begin as
// zeros.
pub fn read_case(
    line: &[u8],
    first: Section,
    image: &mut [u8],
    store: &mut [i32],
    given: &mut [u8],
) -> Option<Case>
    ensures image { IfSome result (λ c. c.image ≤ length image.new) }
    ensures store { IfSome result (λ c. c.store ≤ length store.new) }
    ensures given { IfSome result (λ c. c.given ≤ length given.new) }
{
    let mut s = Reading::new(first, image, store, given);
    for b in line {
        s.step(*b)?;
    }
    let case = s.end()?;
    if image.len() < case.image || store.len() < case.store || given.len() < case.given {
        return None;
    }
    Some(case)
}
