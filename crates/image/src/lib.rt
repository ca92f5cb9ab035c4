// An image's trailer and tables, read from its bytes.
#![tactic(auto)]

ghost use Rattle.std.specs.Prelude.{◌≡◌, ◌≤◌, length, get_or};
ghost use Rattle.model.specs.Answers.{variable};
ghost use Rattle.model.specs.Image.{none, trailer_of, size_of, entry_of, fields_of};
ghost use Rattle.image.specs.Located.{tables, Located, RowOf, TypeOf, VariableOf, StateOf};

use model::{Fields, Image};
use words::half;

// The trailer's seven fields.
pub fn trailer(image: &[u8]) -> Image
    requires { 16 ≤ length image.now }
    ensures { result ≡ trailer_of image.now }
{
    let at = image.len() - 16;
    Image {
        types: half(image, at),
        variables: half(image, at + 2),
        states: half(image, at + 4),
        rows: half(image, at + 6),
        gates: half(image, at + 8),
        condition: half(image, at + 10),
        length: half(image, at + 12),
    }
}

// An image with its trailer, by which its tables are read.
#[derive(Clone, Copy)]
pub struct Automaton<'a> {
    pub image: &'a [u8],
    pub trailer: Image,
}

impl Automaton<'_> {
    // The tables' numbers of entries: each ends where the next starts, the rows where the trailer starts.
    pub fn type_count(&self) -> u16
        requires { Located self.now.image.now self.now.trailer }
        ensures { result ≡ length (tables self.now).sizes }
    {
        (self.trailer.variables - self.trailer.types) / 2
    }

    pub fn variable_count(&self) -> u16
        requires { Located self.now.image.now self.now.trailer }
        ensures { result ≡ length (tables self.now).variables }
    {
        (self.trailer.states - self.trailer.variables) / 4
    }

    pub fn state_count(&self) -> u16
        requires { Located self.now.image.now self.now.trailer }
        ensures { result ≡ length (tables self.now).states }
    {
        (self.trailer.rows - self.trailer.states) / 2
    }

    pub fn row_count(&self) -> u16
        requires { Located self.now.image.now self.now.trailer }
        ensures { result ≡ length (tables self.now).rows }
    {
        (self.trailer.length - 16 - self.trailer.rows) / 8
    }

    // A type's number of values.
    pub fn size(&self, t: u16) -> u16
        requires { TypeOf self.now.image.now self.now.trailer t }
        ensures { result ≡ size_of (tables self.now) t }
    {
        let at = t as usize * 2;
        half(self.image, at)
    }

    // A variable's type.
    pub fn variable_type(&self, v: u16) -> u16
        requires { VariableOf self.now.image.now self.now.trailer v }
        ensures { result ≡ (entry_of (tables self.now) (variable v)).type }
    {
        let at = self.trailer.variables as usize + v as usize * 4;
        half(self.image, at)
    }

    // 1 for a parameter, else 0.
    pub fn parameter(&self, v: u16) -> u16
        requires { VariableOf self.now.image.now self.now.trailer v }
        ensures { result ≡ (entry_of (tables self.now) (variable v)).parameter }
    {
        let at = self.trailer.variables as usize + v as usize * 4 + 2;
        half(self.image, at)
    }

    // The row of a state's action.
    pub fn state_row(&self, q: u16) -> u16
        requires { StateOf self.now.image.now self.now.trailer q }
        ensures { result ≡ get_or (tables self.now).states q none }
    {
        let at = self.trailer.states as usize + q as usize * 2;
        half(self.image, at)
    }

    // The four fields of a row.
    pub fn fields(&self, r: u16) -> Fields
        requires { RowOf self.now.image.now self.now.trailer r }
        ensures { result ≡ fields_of (tables self.now) r }
    {
        let at = self.trailer.rows as usize + r as usize * 8;
        Fields {
            code: half(self.image, at),
            a: half(self.image, at + 2),
            b: half(self.image, at + 4),
            c: half(self.image, at + 6),
        }
    }

    // A row's code.
    pub fn code(&self, r: u16) -> u16
        requires { RowOf self.now.image.now self.now.trailer r }
        ensures { result ≡ (fields_of (tables self.now) r).code }
    {
        let at = self.trailer.rows as usize + r as usize * 8;
        half(self.image, at)
    }
}
