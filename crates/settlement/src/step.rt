// What an adjustment by a correction wants, and where it leads.
ghost use Rattle.std.specs.Prelude.{◌≡◌};
ghost use Rattle.settlement.specs.Steps.{from_phase, last_window, to_phase};

use rows::{Correction, Phase};
use units::Window;

#[derive(Clone, Copy)]
pub(crate) struct Step {
    // the phase that it wants, and the one that it leads to
    pub(crate) from: Phase,
    pub(crate) to: Phase,
    // the last window that is too early for it
    pub(crate) early: Window,
}

impl Step {
    // The step that an adjustment by that correction is.
    pub(crate) fn by(correction: Correction) -> Step
        ensures from { result.from ≡ from_phase correction }
        ensures to { result.to ≡ to_phase correction }
        ensures early { result.early ≡ last_window correction }
    {
        // one match, the table of what differs between the two
        match correction {
            Correction::First => Step {
                from: Phase::Final,
                to: Phase::FirstAdjusted,
                early: Window::Third,
            },
            Correction::Second => Step {
                from: Phase::FirstAdjusted,
                to: Phase::SecondAdjusted,
                early: Window::Fourth,
            },
        }
    }
}
