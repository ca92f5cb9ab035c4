// The lines of the notation that code asks for by number; those of a row are its code's and those of refusals follow by their
// numbers, so that an enum would be no plainer.

// Constants, by type.
pub const FALSE: u16 = 67;

pub const TRUE: u16 = 68;

pub const INT: u16 = 69;

pub const VALUE: u16 = 70;

// A communication on gate 0, and on another.
pub const TAU: u16 = 71;

pub const COMMUNICATE: u16 = 52;

// The trailer.
pub const IMAGE: u32 = 72;

pub const STARTS: u32 = 73;

pub const COUNTS: u32 = 74;

pub const LENGTH: u32 = 75;

// The tables.
pub const TYPES: u32 = 76;

pub const BOOL_TYPE: u32 = 77;

pub const INT_TYPE: u32 = 78;

pub const OTHER_TYPE: u32 = 79;

pub const VARIABLES: u32 = 80;

pub const VARIABLE: u32 = 81;

pub const PARAMETER: u32 = 82;

pub const DAMAGED: u32 = 83;

pub const GATES: u32 = 84;

// The condition, the states and the rows, in the notation and as they are.
pub const CONDITION: u32 = 85;

pub const CONDITION_ROW: u32 = 86;

pub const STATES: u32 = 87;

pub const STATE_ROW: u32 = 88;

pub const STATE: u32 = 89;

pub const ROWS: u32 = 90;

pub const ROW: u32 = 91;

// The verdict; refusal n is line REFUSED + n.
pub const SET: u32 = 92;

pub const SET_END: u32 = 93;

pub const ACCEPTED: u32 = 94;

pub const REFUSED: u32 = 95;

// A graph.
pub const GRAPH: u32 = 108;

pub const BOX: u32 = 109;

pub const ARROW: u32 = 110;

pub const LABEL_END: u32 = 111;

pub const GRAPH_END: u32 = 112;

pub const REFUSED_BOX: u32 = 113;

pub const SPOKEN_TAU: u32 = 114;

pub const SPOKEN_GATE: u32 = 115;
