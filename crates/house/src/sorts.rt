// The stamp at which something is handed in: it may not be before the interval's last, and it decides the sort of a
// reading.
ghost use Rattle.std.specs.Prelude.{◌≡◌, [], ◌∷◌, IfOk, Some};
ghost use Rattle.units.specs.Checks.{first_met};
ghost use Rattle.units.specs.Refusals.{answer_number};
ghost use Rattle.units.specs.Stamps.{earlier, window};
ghost use Rattle.rows.specs.Phases.{phase_number};
ghost use Rattle.rows.specs.Sorts.{sort_checks, sort_for};
ghost use Rattle.house.specs.Open.{check};

use rows::{Correction, Interval};
use units::{Refusal, Stamp};

// Refused by 6 where the stamp is before the interval's last.
pub fn check_last(interval: &Interval, stamp: Stamp) -> Result<(), Refusal>
    ensures { answer_number result ≡ first_met (check 6 (earlier stamp.days stamp.minute interval.now.last.days interval.now.last.minute) ∷ []) }
{
    if stamp.is_before(interval.last) {
        return Err(Refusal::StampBeforeLast);
    }
    Ok(())
}

// The sort of a reading with that stamp, by the interval's phase and the stamp's window.
pub(crate) fn sort_at(interval: &Interval, stamp: Stamp) -> Result<Option<Correction>, Refusal>
    ensures answer { answer_number result ≡ first_met (check 6 (earlier stamp.days stamp.minute interval.now.last.days interval.now.last.minute) ∷ sort_checks (phase_number interval.now.phase) (window stamp.days stamp.minute)) }
    ensures sort { IfOk result (λ s. sort_for (phase_number interval.now.phase) (window stamp.days stamp.minute) ≡ Some s) }
{
    check_last(interval, stamp)?;
    interval.sort_in(stamp.window())
}
