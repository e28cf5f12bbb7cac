// The half hour and the stamp that a call names, and what keeps an interval from a step at that stamp.
ghost use Rattle.std.specs.Prelude.{◌≡◌, not, [], ◌∷◌, IfOk, ◌==◌, nat_le, unsigned_abs};
ghost use Rattle.units.specs.Checks.{first_met};
ghost use Rattle.units.specs.Refusals.{answer_number};
ghost use Rattle.units.specs.Stamps.{earlier, window};
ghost use Rattle.units.specs.Windows.{window_number};
ghost use Rattle.rows.specs.Phases.{phase_number};
ghost use Rattle.house.specs.Open.{check};
ghost use Rattle.house.specs.State.{key_of};
ghost use Rattle.statement.specs.Statements.{is_stamped, stamped_key};

use calls::StampedCall;
use house::check_last;
use rows::{Interval, Phase};
use units::{HalfHour, Refusal, Stamp, Window};

// A half hour and a stamp, held to their ranges. What the house calls stamped is a row, which a half hour is not.
#[derive(Clone, Copy)]
pub struct Stamped {
    pub half_hour: HalfHour,
    pub stamp: Stamp,
}

// The half hour and the stamp of a call, refused by 1 where a number lies outside its range.
pub fn taken(call: &StampedCall) -> Result<Stamped, Refusal>
    ensures answer { answer_number result ≡ first_met (check 1 (not (is_stamped call.now)) ∷ []) }
    ensures half_hour { IfOk result (λ t. key_of t.half_hour ≡ stamped_key call.now) }
    ensures stamp { IfOk result (λ t. (t.stamp.days ≡ unsigned_abs call.now.days) × (t.stamp.minute ≡ unsigned_abs call.now.minute)) }
{
    let half_hour = HalfHour::new(call.day, call.interval)?;
    let stamp = Stamp::new(call.days, call.minute)?;
    Ok(Stamped { half_hour, stamp })
}

// Refused by 8 where the stamp falls in that window or an earlier one.
pub(crate) fn check_window(stamp: Stamp, early: Window) -> Result<(), Refusal>
    ensures { answer_number result ≡ first_met (check 8 (nat_le (window stamp.days stamp.minute) (window_number early)) ∷ []) }
{
    if stamp.window() <= early {
        return Err(Refusal::WrongWindow);
    }
    Ok(())
}

// What keeps an interval from a step that it takes in that phase, once the stamp is past that window: a stamp before its
// last, another phase, a stamp in that window or an earlier one.
pub fn check_stamp(
    interval: &Interval,
    phase: Phase,
    early: Window,
    stamp: Stamp,
) -> Result<(), Refusal>
    ensures { answer_number result ≡ first_met (check 6 (earlier stamp.days stamp.minute interval.now.last.days interval.now.last.minute) ∷ check 7 (not (phase_number interval.now.phase == phase_number phase)) ∷ check 8 (nat_le (window stamp.days stamp.minute) (window_number early)) ∷ []) }
{
    check_last(interval, stamp)?;
    if interval.phase != phase {
        return Err(Refusal::WrongPhase);
    }
    check_window(stamp, early)
}
