// What a line can say.
ghost use Rattle.std.specs.Prelude.{codes, Some};

use calls::{
    ContractCall, FacilityCall, HalfHourCall, HouseCall, IntervalCall, LoadCall, StampedCall,
    VestingCall,
};
use std::fmt;

#[derive(Clone, Copy)]
pub enum Call {
    House(HouseCall),
    Interval(IntervalCall),
    Facility(FacilityCall),
    Load(LoadCall),
    Contract(ContractCall),
    Vesting(VestingCall),
    Preliminary(StampedCall),
    Withdraw(HalfHourCall),
    // of that participant
    Npsc(i64),
}

// The line is not of the format.
#[derive(Clone, Copy)]
pub struct Malformed;

impl fmt::Display for Malformed {
    ghost output = { λ _. Some (codes "malformed") };

    fn fmt<W: fmt::Write>(&self, f: &mut fmt::Formatter<W>) -> fmt::Result {
        write!(f, "malformed")
    }
}
