// The preliminary statement that is handed out for a half hour. It must be finalised or withdrawn: it can be neither
// dropped nor used twice, since it is no `Drop` and no `Copy`.
ghost use Rattle.std.specs.Prelude.{◌≡◌};

use units::{HalfHour, Refusal};

pub struct Statement {
    // the number of the house that handed it out
    pub(crate) house: u16,
    pub(crate) half_hour: HalfHour,
}

impl Statement {
    // The half hour that it is of.
    pub fn half_hour(&self) -> HalfHour
        ensures { result ≡ self.now.half_hour }
    {
        self.half_hour
    }
}

// A refused final: why, and the statement that it was given, which is still to be finalised or withdrawn.
pub struct Refused {
    pub refusal: Refusal,
    pub statement: Statement,
}
