// What a call is answered.
use format::call::Malformed;
use std::fmt;
use units::{Money, Refusal};

#[derive(Clone, Copy)]
pub enum Answer {
    // the line is not of the format
    Malformed,
    // no house is open yet
    NoHouse,
    // a house is open already
    HouseOpen,
    // no statement of that half hour is held
    Missing,
    // the call was accepted
    Accepted,
    // the call was refused
    Refused(Refusal),
    // a preliminary statement was written; its lines are to be read
    Written,
    // what a participant is credited
    Credited(i64, Money),
}

impl From<Malformed> for Answer {
    fn from(_malformed: Malformed) -> Answer {
        Answer::Malformed
    }
}

impl From<Refusal> for Answer {
    fn from(refusal: Refusal) -> Answer {
        Answer::Refused(refusal)
    }
}

// The answer to a call that has nothing to tell but whether it was accepted.
impl From<Result<(), Refusal>> for Answer {
    fn from(outcome: Result<(), Refusal>) -> Answer {
        match outcome {
            Ok(()) => Answer::Accepted,
            Err(refusal) => Answer::Refused(refusal),
        }
    }
}

// An answer as it is printed, but for the lines of a statement.
impl fmt::Display for Answer {
    fn fmt<W: fmt::Write>(&self, f: &mut fmt::Formatter<W>) -> fmt::Result {
        match self {
            Answer::Malformed => write!(f, "{Malformed}"),
            Answer::NoHouse => write!(f, "no house"),
            Answer::HouseOpen => write!(f, "house open"),
            Answer::Missing => write!(f, "missing"),
            Answer::Accepted | Answer::Written => write!(f, "ok"),
            Answer::Refused(refusal) => write!(f, "refused,{refusal}"),
            Answer::Credited(participant, amount) => write!(f, "npsc,{participant},{amount}"),
        }
    }
}
