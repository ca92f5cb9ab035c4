// The reading of a case's sections, byte by byte, into its image, its store and its words given.
use crate::put::{put, put_slot};
use crate::{Case, Section};

// The longest section, in numbers.
const NUMBERS: u16 = 65000;

// From here on a digit more could be past 32 bits.
const LONG: u32 = 400000000;

// Where the tables begin.
#[derive(Clone, Copy, Default)]
struct Starts {
    variables: usize,
    states: usize,
    rows: usize,
    trailer: usize,
}

// Where the reading stands, and what it writes.
#[derive(Drop)]
pub(crate) struct Reading<'a> {
    image: &'a mut [u8],
    store: &'a mut [i32],
    given: &'a mut [u8],
    section: Section,
    // The number that is being read, and whether a sign stands before it.
    number: Option<u32>,
    negative: bool,
    // Numbers of this row or section.
    fields: u16,
    case: Case,
    starts: Starts,
    // The two numbers of a short trailer.
    gates: u32,
    condition: u32,
}

impl<'a> Reading<'a> {
    pub(crate) fn new(
        first: Section,
        image: &'a mut [u8],
        store: &'a mut [i32],
        given: &'a mut [u8],
    ) -> Self {
        Reading {
            image,
            store,
            given,
            section: first,
            number: None,
            negative: false,
            fields: 0,
            case: Case::default(),
            starts: Starts::default(),
            gates: 0,
            condition: 0,
        }
    }

    // Some numbers of a case and the two of a short trailer are kept aside.
    fn keep(&mut self, n: u32) {
        match (self.section, self.fields) {
            (Section::Room, _) => self.case.room = n,
            (Section::Numbers, 0) => self.case.state = n,
            (Section::Numbers, 1) => self.case.budget = n,
            (Section::Numbers, _) => self.case.label = n,
            (Section::Trailer, 0) => self.gates = n,
            (Section::Trailer, 1) => self.condition = n,
            _ => {}
        }
    }

    // One number more.
    fn count(&mut self) -> Option<()> {
        if NUMBERS < self.fields {
            return None;
        }
        self.fields += 1;
        Some(())
    }

    // A number goes where its section says; single says that it's one byte.
    fn put(&mut self, n: u32, single: bool) -> Option<()> {
        let bytes = n.to_le_bytes();
        match self.section {
            Section::Room => self.keep(n),
            Section::Numbers => {
                self.keep(n);
                self.count()?;
            }
            Section::Store => self.case.store = put_slot(self.store, self.case.store, n),
            Section::Given => {
                let count = if single { 1 } else { 4 };
                self.case.given = put(self.given, self.case.given, &bytes[..count]);
            }
            _ => {
                let count = if single { 1 } else { 2 };
                self.case.image = put(self.image, self.case.image, &bytes[..count]);
                self.keep(n);
                self.count()?;
            }
        }
        Some(())
    }

    // The open number is done, a negative one in two's complement.
    fn close(&mut self, single: bool) -> Option<()> {
        let Some(n) = self.number else {
            return Some(());
        };
        if self.section.is_narrow() && 65535 < n {
            return None;
        }
        let n = if self.negative { n.wrapping_neg() } else { n };
        self.number = None;
        self.negative = false;
        self.put(n, single)
    }

    fn digit(&mut self, d: u8) -> Option<()> {
        let n = self.number.unwrap_or(0);
        if LONG < n {
            return None;
        }
        self.number = Some(n * 10 + d as u32);
        Some(())
    }

    // A sign stands before its digits.
    fn minus(&mut self) -> Option<()> {
        if self.number.is_some() || self.negative {
            return None;
        }
        self.negative = true;
        Some(())
    }

    // A letter for a number.
    fn letter(&mut self, n: u32) -> Option<()> {
        if self.number.is_some() || self.negative {
            return None;
        }
        self.number = Some(n);
        Some(())
    }

    // A row ends: to four fields it has the zeros that the image began with.
    fn row(&mut self) -> Option<()> {
        if self.section != Section::Rows || 4 < self.fields {
            return None;
        }
        let zeros = 2 * (4 - self.fields) as usize;
        self.case.image = self.case.image.saturating_add(zeros);
        self.fields = 0;
        Some(())
    }

    // A section ends, and the next table begins here.
    fn bar(&mut self) -> Option<()> {
        let at = self.case.image;
        match self.section {
            Section::Types => self.starts.variables = at,
            Section::Variables => self.starts.states = at,
            Section::States => self.starts.rows = at,
            Section::Rows => self.starts.trailer = at,
            _ => {}
        }
        self.section = self.section.next()?;
        self.fields = 0;
        Some(())
    }

    // A byte of the line.
    pub(crate) fn step(&mut self, b: u8) -> Option<()> {
        match b {
            b'0'..=b'9' => self.digit(b - b'0'),
            b'-' => self.minus(),
            b'n' => self.letter(65535),
            b'u' => self.letter(65536),
            b'b' => self.close(true),
            b' ' | b',' => self.close(false),
            b';' => {
                self.close(false)?;
                self.row()
            }
            b'|' => {
                self.close(false)?;
                self.bar()
            }
            _ => None,
        }
    }

    // The rest of a trailer of two numbers.
    fn complete(&mut self) {
        let starts = self.starts;
        let end = starts.trailer.saturating_add(16);
        let fields = [
            0,
            starts.variables,
            starts.states,
            starts.rows,
            self.gates as usize,
            self.condition as usize,
            end,
            21582,
        ];
        let mut at = starts.trailer;
        for n in fields {
            at = put(self.image, at, &n.to_le_bytes()[..2]);
        }
        self.case.image = at;
    }

    // The line has ended; a trailer has two numbers or eight.
    pub(crate) fn end(&mut self) -> Option<Case> {
        self.close(false)?;
        match (self.section, self.fields) {
            (Section::Trailer, 2) => self.complete(),
            (Section::Trailer, 8) => {}
            _ => return None,
        }
        self.case.states = self.starts.rows.saturating_sub(self.starts.states) / 2;
        Some(self.case)
    }
}
