// A half hour: a trading day and one of its 48 intervals.
ghost use Rattle.std.specs.Prelude.{◌≡◌, ◌≤◌, ◌&&◌, pos, is_ok, MatchResult};
ghost use Rattle.units.specs.Ranges.{inside, day_range, interval_range};
ghost use Rattle.units.specs.declared.refusal.Refusal.TheVariants.{OutOfRange};

use crate::range::{DAY, INTERVAL};
use crate::refusal::Refusal;

#[derive(Clone, Copy, PartialEq, Eq, PartialOrd, Ord, Debug)]
pub struct HalfHour {
    pub day: u16,
    pub interval: u8,
    ghost day_ok: { (1 ≤ day) × (day ≤ 40000) },
    ghost interval_ok: { (1 ≤ interval) × (interval ≤ 48) },
}

impl HalfHour {
    pub fn new(day: i64, interval: i64) -> Result<HalfHour, Refusal>
        ensures made { MatchResult result (λ h. (pos h.day ≡ day) × (pos h.interval ≡ interval)) (λ e. e ≡ OutOfRange) }
        ensures accepts { is_ok result ≡ (inside day_range day && inside interval_range interval) }
    {
        let day = DAY.take(day)? as u16;
        let interval = INTERVAL.take(interval)? as u8;
        Ok(HalfHour { day, interval })
    }
}
