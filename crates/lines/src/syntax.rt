// What a reader of lines sees.

// A character of a field that holds a number, or the end of a field. Settled form: digits and separator
// are literal cases of one match, which gives one answer more than an Option of a digit has.
#[derive(Clone, Copy, Debug, PartialEq, Eq)]
pub enum Symbol {
    Digit(u8),
    Separator,
    Other,
}

// A call as a line writes it.
#[derive(Clone, Copy, Debug, PartialEq, Eq)]
pub enum Call {
    Open { stations: u64, patience: u64 },
    Propose { station: u64, number: u64 },
    Start,
    Deliver { place: u64 },
    Consult { station: u64 },
    Crash { station: u64 },
    Pass,
}
