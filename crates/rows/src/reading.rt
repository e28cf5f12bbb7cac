// What a reading does, by the interval's phase and the stamp's window together.
ghost use Rattle.std.specs.Prelude.{◌≡◌, IfOk, Some};
ghost use Rattle.units.specs.Checks.{first_met};
ghost use Rattle.units.specs.Refusals.{answer_number};
ghost use Rattle.units.specs.Windows.{window_number};
ghost use Rattle.rows.specs.Phases.{phase_number};
ghost use Rattle.rows.specs.Sorts.{sort_for, sort_checks};

use crate::correction::Correction;
use crate::interval::Interval;
use crate::phase::Phase;
use units::{Refusal, Window};

impl Interval {
    // The sort of a reading that is handed in now, in that window: a correction, or none for a base reading.
    pub fn sort_in(&self, window: Window) -> Result<Option<Correction>, Refusal>
        ensures answer { answer_number result ≡ first_met (sort_checks (phase_number self.now.phase) (window_number window)) }
        ensures sort { IfOk result (λ s. sort_for (phase_number self.now.phase) (window_number window) ≡ Some s) }
    {
        match (self.phase, window) {
            (Phase::Reading | Phase::Preliminary, Window::First | Window::Second) => Ok(None),
            (Phase::Final, Window::Third) => Ok(Some(Correction::First)),
            (Phase::Final | Phase::FirstAdjusted, Window::Fourth) => Ok(Some(Correction::Second)),
            (Phase::SecondAdjusted, _) => Err(Refusal::WrongPhase),
            _ => Err(Refusal::WrongWindow),
        }
    }
}
