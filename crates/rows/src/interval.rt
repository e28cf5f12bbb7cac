// Intervals: the pool price (USEP) and the fee rate of a half hour, how far it has come, the last stamp that it accepted,
// and its uplift rate once it is final.
ghost use Rattle.std.specs.Prelude.{◌≡◌, ◌&&◌, pos, is_ok, Some, None, MatchResult};
ghost use Rattle.std.specs.Option.{unwrap_or};
ghost use Rattle.units.specs.Ranges.{Around, Within, inside, price_range, rate_range, uplift_range};
ghost use Rattle.units.specs.declared.refusal.Refusal.TheVariants.{OutOfRange, UpliftBeyondLimit};
ghost use Rattle.register.specs.Keys.{interval_key};
ghost use Rattle.rows.specs.Phases.{phase_number};
ghost use Rattle.std.proofs.Common.{rules, arith};

use crate::phase::Phase;
use register::register::Row;
use units::range::{PRICE, RATE, UPLIFT};
use units::{HalfHour, Price, Refusal, Stamp};

#[derive(Clone, Copy)]
pub struct Interval {
    pub half_hour: HalfHour,
    pub usep: Price,
    pub rate: Price,
    pub phase: Phase,
    pub last: Stamp,
    // in cents per MWh
    pub uplift: Option<i64>,
    ghost usep_ok: { Around 1000000 usep.0 },
    ghost rate_ok: { Within (pos 0) (pos 100000) rate.0 },
    ghost uplift_ok: { Around 100000000 (unwrap_or uplift (pos 0)) },
}

impl Interval {
    // An interval as it is opened: its readings are awaited, and its last stamp is the first there is.
    pub fn open(half_hour: HalfHour, usep: i64, rate: i64) -> Result<Interval, Refusal>
        ensures made { MatchResult result (λ i. (i.half_hour ≡ half_hour) × (i.usep.0 ≡ usep) × (i.rate.0 ≡ rate) × (phase_number i.phase ≡ 1) × (i.last.days ≡ 0) × (i.last.minute ≡ 0) × (i.uplift ≡ None)) (λ e. e ≡ OutOfRange) }
        ensures accepts { is_ok result ≡ (inside price_range usep && inside rate_range rate) }
    {
        let usep = Price(PRICE.take(usep)?);
        let rate = Price(RATE.take(rate)?);
        let last = Stamp { days: 0, minute: 0 };
        Ok(Interval {
            half_hour,
            usep,
            rate,
            phase: Phase::Reading,
            last,
            uplift: None,
        })
    }

    // The same in that phase, with that last stamp.
    pub fn moved(mut self, phase: Phase, last: Stamp) -> Interval
        ensures kept { (result.half_hour ≡ self.half_hour) × (result.usep ≡ self.usep) × (result.rate ≡ self.rate) × (result.uplift ≡ self.uplift) }
        ensures phase { result.phase ≡ phase }
        ensures last { result.last ≡ last }
    {
        // a literal with `..self` is refused for a struct with ghost fields
        self.phase = phase;
        self.last = last;
        self
    }

    // The same with that uplift rate, which lies within its limit or is refused.
    pub fn with_uplift(mut self, uplift: Price) -> Result<Interval, Refusal>
        ensures made { MatchResult result (λ i. (i.half_hour ≡ self.half_hour) × (i.usep ≡ self.usep) × (i.rate ≡ self.rate) × (i.phase ≡ self.phase) × (i.last ≡ self.last) × (i.uplift ≡ Some uplift.0)) (λ e. e ≡ UpliftBeyondLimit) }
        ensures accepts { is_ok result ≡ inside uplift_range uplift.0 }
    {
        if !UPLIFT.holds(uplift.0) {
            return Err(Refusal::UpliftBeyondLimit);
        }
        // a literal with `..self` is refused for a struct with ghost fields
        self.uplift = Some(uplift.0);
        Ok(self)
    }
}

impl Row for Interval {
    type Key = HalfHour;

    ghost numbers = { λ k. interval_key k.day k.interval };

    ghost carried = { λ r. interval_key r.half_hour.day r.half_hour.interval };

    ghost tells = { first_of (Prim.search rules, Prim.grind (arith, Self.row.coded.inj)) };

    fn key(&self) -> HalfHour {
        self.half_hour
    }

    fn half_hour(&self) -> HalfHour {
        self.half_hour
    }
}
