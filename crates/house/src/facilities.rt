// Facility readings: a correction is of the facility's row of the same account and price, and changes its energy.
ghost use Rattle.std.specs.Prelude.{◌≡◌, MatchResult, refl};
ghost use Rattle.units.specs.Checks.{first_met};
ghost use Rattle.units.specs.Refusals.{answer_number};
ghost use Rattle.rows.specs.Meaning.{FacilitySaid, facility_rows, facility_says, interval_rows};
ghost use Rattle.house.specs.Readings.{facilities_after, facility_checks, facility_intervals, facility_kind};

use crate::readings::{Reading, read};
use crate::taken::taken_facility;
use calls::FacilityCall;
use rows::{Correction, FacilityReading, Interval};
use units::Refusal;

impl Reading for FacilityReading {
    ghost Said = { FacilitySaid };

    ghost says = { facility_says };

    ghost kind = { facility_kind };

    fn may_correct(&self, old: &FacilityReading) -> bool {
        old.account == self.account && old.mep == self.mep
    }

    fn corrected(self, correction: Correction, reading: &FacilityReading) -> FacilityReading {
        self.with(correction, reading)
    }

    ghost keyed = { λ r. refl };

    ghost keeps = { λ c new old. refl };
}

// Takes a facility's reading.
pub fn read_facility(
    intervals: &mut [Option<Interval>],
    facilities: &mut [Option<FacilityReading>],
    call: &FacilityCall,
) -> Result<(), Refusal>
    ensures answer { answer_number result ≡ first_met (facility_checks call.now (interval_rows intervals.old) (facility_rows facilities.old)) }
    ensures intervals { MatchResult result (λ _. interval_rows intervals.new ≡ facility_intervals call.now (interval_rows intervals.old)) (λ _. intervals.new ≡ intervals.old) }
    ensures facilities { MatchResult result (λ _. facility_rows facilities.new ≡ facilities_after call.now (interval_rows intervals.old) (facility_rows facilities.old)) (λ _. facilities.new ≡ facilities.old) }
{
    let taken = taken_facility(call)?;
    read(intervals, facilities, &taken)
}
