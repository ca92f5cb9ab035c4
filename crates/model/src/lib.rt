// What the documents' definitions and the calls share: the image type with its limits, the report's sets of states,
// variables and gates, and the answers by value.
#![tactic(auto)]

ghost use Rattle.std.specs.Prelude.{◌≡◌};
ghost use Rattle.model.specs.Limits.{limits};
ghost use Rattle.model.specs.Answers.{number, place};

// A state of the report's set of states.
#[derive(Clone, Copy)]
pub struct State(pub u16);

// A variable of the report's set of variables.
#[derive(Clone, Copy)]
pub struct Variable(pub u16);

// A gate of the report's set of gates; gate 0 is τ.
#[derive(Clone, Copy)]
pub struct Gate(pub u16);

// A row of an image, by its number.
#[derive(Clone, Copy)]
pub struct Row(pub u16);

// The four fields of a row. The code stays a number: document 01 has it matched by ranges, and the definitions (shape_of) go
// by it.
#[derive(Clone, Copy)]
pub struct Fields {
    pub code: u16,
    pub a: u16,
    pub b: u16,
    pub c: u16,
}

// An image, by the fields of its trailer in their order: the starts of its four tables, its number of gates, the row of
// its initial condition, its length.
#[derive(Clone, Copy)]
pub struct Image {
    pub types: u16,
    pub variables: u16,
    pub states: u16,
    pub rows: u16,
    pub gates: u16,
    pub condition: u16,
    pub length: u16,
}

// The limits once more as values, so that a definition can name them.
#[derive(Clone, Copy)]
pub struct Bounds {
    pub types_least: u16,
    pub types: u16,
    pub values_least: u16,
    pub values: u16,
    pub variables_least: u16,
    pub variables: u16,
    pub states_least: u16,
    pub states: u16,
    pub gates_least: u16,
    pub gates: u16,
    pub rows_least: u16,
    pub rows: u16,
    pub length_least: u16,
    pub length: u16,
    pub vector: u16,
    pub branches: u16,
    pub label: u16,
    pub budget: u32,
}

impl Image {
    pub const TYPES_LEAST: u16 = 2;

    pub const TYPES: u16 = 16;

    // Values of a type other than int.
    pub const VALUES_LEAST: u16 = 1;

    pub const VALUES: u16 = 4096;

    pub const VARIABLES_LEAST: u16 = 0;

    pub const VARIABLES: u16 = 64;

    pub const STATES_LEAST: u16 = 1;

    pub const STATES: u16 = 64;

    pub const GATES_LEAST: u16 = 1;

    pub const GATES: u16 = 64;

    pub const ROWS_LEAST: u16 = 2;

    pub const ROWS: u16 = 2048;

    pub const LENGTH_LEAST: u16 = 38;

    pub const LENGTH: u16 = 16816;

    // Vectors and lists of offers.
    pub const VECTOR: u16 = 8;

    // Branches of a select, arms of a case.
    pub const BRANCHES: u16 = 64;

    // Words of a label.
    pub const LABEL: u16 = 10;

    pub const BUDGET: u32 = 1000000;

    // No row, in a field that may name one: a number and no Option, since it is the image's form.
    pub const NONE: u16 = 0xFFFF;

    // Types 0 and 1.
    pub const BOOL: u16 = 0;

    pub const INT: u16 = 1;

    // Half the number of int's values.
    pub const HALF: u16 = 32768;

    // What a store holds for an undefined variable: no int. A number and no Option, since C lends stores as words.
    pub const UNDEFINED: i32 = 65536;

    // The constants are the limits that the definitions name.
    pub fn limits() -> Bounds
        ensures { result ≡ limits }
    {
        Bounds {
            types_least: Image::TYPES_LEAST,
            types: Image::TYPES,
            values_least: Image::VALUES_LEAST,
            values: Image::VALUES,
            variables_least: Image::VARIABLES_LEAST,
            variables: Image::VARIABLES,
            states_least: Image::STATES_LEAST,
            states: Image::STATES,
            gates_least: Image::GATES_LEAST,
            gates: Image::GATES,
            rows_least: Image::ROWS_LEAST,
            rows: Image::ROWS,
            length_least: Image::LENGTH_LEAST,
            length: Image::LENGTH,
            vector: Image::VECTOR,
            branches: Image::BRANCHES,
            label: Image::LABEL,
            budget: Image::BUDGET,
        }
    }
}

// What is given instead of an answer: a case for each number of the table, two for 6, with its place.
#[derive(Clone, Copy)]
pub enum Refusal {
    ImageLength,
    MarkOrLength,
    Starts,
    Entries,
    Malformed(Row),
    NoAction(State),
    // The initial condition's row is no expression; the place is the number of states.
    NoCondition(u16),
    NotNamedOnce(Row),
    Typing(Row),
    Binding(Row),
    SetsShort,
    Initialisation(State),
    Speech(State),
    StoreLength,
    ParameterCount,
    ParameterValue(Variable),
    ConditionFalse,
    NoState,
    SlotValue(Variable),
    LabelShort,
    BudgetOver,
    Blocked(Row),
    Undefined(Row),
    ScriptEnded(Row),
    WordOutOfRange(Row),
    BudgetSpent(Row),
    BlockedSpoken(Row),
    SecondCommunication(Row),
}

impl Refusal {
    // The number of the table. Two cases share 6, so that no discriminant says it.
    pub fn number(self) -> u16
        ensures { result ≡ number self }
    {
        match self {
            Refusal::ImageLength => 1,
            Refusal::MarkOrLength => 2,
            Refusal::Starts => 3,
            Refusal::Entries => 4,
            Refusal::Malformed(_) => 5,
            Refusal::NoAction(_) => 6,
            Refusal::NoCondition(_) => 6,
            Refusal::NotNamedOnce(_) => 7,
            Refusal::Typing(_) => 8,
            Refusal::Binding(_) => 9,
            Refusal::SetsShort => 10,
            Refusal::Initialisation(_) => 11,
            Refusal::Speech(_) => 12,
            Refusal::StoreLength => 13,
            Refusal::ParameterCount => 14,
            Refusal::ParameterValue(_) => 15,
            Refusal::ConditionFalse => 16,
            Refusal::NoState => 17,
            Refusal::SlotValue(_) => 18,
            Refusal::LabelShort => 19,
            Refusal::BudgetOver => 20,
            Refusal::Blocked(_) => 21,
            Refusal::Undefined(_) => 22,
            Refusal::ScriptEnded(_) => 23,
            Refusal::WordOutOfRange(_) => 24,
            Refusal::BudgetSpent(_) => 25,
            Refusal::BlockedSpoken(_) => 26,
            Refusal::SecondCommunication(_) => 27,
        }
    }

    // The place of the table: its cases are the table's, and no derive gives them.
    pub fn place(self) -> u16
        ensures { result ≡ place self }
    {
        match self {
            Refusal::ImageLength => 0,
            Refusal::MarkOrLength => 0,
            Refusal::Starts => 0,
            Refusal::Entries => 0,
            Refusal::Malformed(r) => r.0,
            Refusal::NoAction(s) => s.0,
            Refusal::NoCondition(n) => n,
            Refusal::NotNamedOnce(r) => r.0,
            Refusal::Typing(r) => r.0,
            Refusal::Binding(r) => r.0,
            Refusal::SetsShort => 0,
            Refusal::Initialisation(s) => s.0,
            Refusal::Speech(s) => s.0,
            Refusal::StoreLength => 0,
            Refusal::ParameterCount => 0,
            Refusal::ParameterValue(v) => v.0,
            Refusal::ConditionFalse => 0,
            Refusal::NoState => 0,
            Refusal::SlotValue(v) => v.0,
            Refusal::LabelShort => 0,
            Refusal::BudgetOver => 0,
            Refusal::Blocked(r) => r.0,
            Refusal::Undefined(r) => r.0,
            Refusal::ScriptEnded(r) => r.0,
            Refusal::WordOutOfRange(r) => r.0,
            Refusal::BudgetSpent(r) => r.0,
            Refusal::BlockedSpoken(r) => r.0,
            Refusal::SecondCommunication(r) => r.0,
        }
    }
}

// A step that moves: the next state, the words read, the units used.
#[derive(Clone, Copy)]
pub struct Move {
    pub next: State,
    pub words: u32,
    pub units: u32,
}

// A condition: a bool expression tested.
#[derive(Clone, Copy)]
pub enum Tested {
    Holds,
    Fails,
    Unsure,
}

// How the run of an action ends: without a jump, by a jump, or with a refusal.
#[derive(Clone, Copy)]
pub enum Outcome {
    Ends,
    Jumps(State),
    Stops(Refusal),
}
