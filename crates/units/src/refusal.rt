// Why a call is refused. Each case has its number, which is what a clerk is answered.
ghost use Rattle.std.specs.Prelude.{◌≡◌, Some};
ghost use Rattle.std.specs.Fmt.{decimal};
ghost use Rattle.units.specs.Refusals.{refusal_number};

use std::fmt;

#[derive(Clone, Copy, PartialEq, Eq, Debug)]
pub enum Refusal {
    OutOfRange = 1,
    SameParty = 2,
    NotAfterLatest = 3,
    NotOpen = 4,
    NotThisStatement = 5,
    StampBeforeLast = 6,
    WrongPhase = 7,
    WrongWindow = 8,
    NothingToCorrect = 9,
    RegisterFull = 10,
    TooFewLines = 11,
    VestingWithoutFacility = 12,
    NoLoadForUplift = 13,
    UpliftBeyondLimit = 14,
    BalanceBeyondLimit = 15,
    TooFewPlaces = 16,
}

impl Refusal {
    // The number of the case; each such enum has its own, since no generic function can cast one.
    pub fn number(self) -> u8
        ensures { result ≡ refusal_number self }
    {
        self as u8
    }
}

// A refusal is written as its number.
impl fmt::Display for Refusal {
    ghost output = { λ e. Some (decimal (refusal_number e)) };

    fn fmt<W: fmt::Write>(&self, f: &mut fmt::Formatter<W>) -> fmt::Result {
        self.number().fmt(f)
    }
}
