// The phases of an interval, from its opening to its second adjustment.
ghost use Rattle.std.specs.Prelude.{◌≡◌};
ghost use Rattle.rows.specs.Phases.{phase_number};

#[derive(Clone, Copy, PartialEq, Eq, Debug)]
pub enum Phase {
    Reading = 1,
    Preliminary = 2,
    Final = 3,
    FirstAdjusted = 4,
    SecondAdjusted = 5,
}

impl Phase {
    // The number of the case; each such enum has its own, since no generic function can cast one.
    pub fn number(self) -> u8
        ensures { result ≡ phase_number self }
    {
        self as u8
    }
}
