// Why the program stops, and where.
use format::call::Malformed;
use std::fmt;
use units::Refusal;

// Why the desk stops at a line.
#[derive(Clone, Copy)]
pub enum Stop {
    Malformed,
    NoHouse,
    NoInterval,
    // a line was refused
    Refused(Refusal),
    // every line was taken, and the half hour cannot be settled
    Unsettled(Refusal),
}

impl From<Malformed> for Stop {
    fn from(_malformed: Malformed) -> Stop {
        Stop::Malformed
    }
}

impl From<Refusal> for Stop {
    fn from(refusal: Refusal) -> Stop {
        Stop::Refused(refusal)
    }
}

impl fmt::Display for Stop {
    fn fmt<W: fmt::Write>(&self, f: &mut fmt::Formatter<W>) -> fmt::Result {
        match self {
            Stop::Malformed => write!(f, "{Malformed}"),
            Stop::NoHouse => write!(f, "no house"),
            Stop::NoInterval => write!(f, "no interval"),
            Stop::Refused(refusal) | Stop::Unsettled(refusal) => write!(f, "refused,{refusal}"),
        }
    }
}

// Why the program stopped, and at which line, counted from 1.
#[derive(Clone, Copy)]
pub struct Halt<'a> {
    pub stop: Stop,
    pub number: usize,
    // without the blanks around it; empty after the last line
    pub line: &'a [u8],
}

impl fmt::Display for Halt<'_> {
    fn fmt<W: fmt::Write>(&self, f: &mut fmt::Formatter<W>) -> fmt::Result {
        match self.stop {
            Stop::Refused(_) | Stop::Unsettled(_) => write!(f, "{}", self.stop),
            _ => write!(f, "{},line {}", self.stop, self.number),
        }
    }
}
