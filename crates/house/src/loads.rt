// Load readings: a correction is of any row of the load, and changes its quantities.
ghost use Rattle.std.specs.Prelude.{◌≡◌, MatchResult, refl};
ghost use Rattle.units.specs.Checks.{first_met};
ghost use Rattle.units.specs.Refusals.{answer_number};
ghost use Rattle.rows.specs.Meaning.{LoadSaid, load_rows, load_says, interval_rows};
ghost use Rattle.house.specs.Readings.{loads_after, load_checks, load_intervals, load_kind};

use crate::readings::{Reading, read};
use crate::taken::taken_load;
use calls::LoadCall;
use rows::{Correction, Interval, LoadReading};
use units::Refusal;

impl Reading for LoadReading {
    ghost Said = { LoadSaid };

    ghost says = { load_says };

    ghost kind = { load_kind };

    fn may_correct(&self, _old: &LoadReading) -> bool {
        true
    }

    fn corrected(self, correction: Correction, reading: &LoadReading) -> LoadReading {
        self.with(correction, reading)
    }

    ghost keyed = { λ r. refl };

    ghost keeps = { λ c new old. refl };
}

// Takes a load's reading.
pub fn read_load(
    intervals: &mut [Option<Interval>],
    loads: &mut [Option<LoadReading>],
    call: &LoadCall,
) -> Result<(), Refusal>
    ensures answer { answer_number result ≡ first_met (load_checks call.now (interval_rows intervals.old) (load_rows loads.old)) }
    ensures intervals { MatchResult result (λ _. interval_rows intervals.new ≡ load_intervals call.now (interval_rows intervals.old)) (λ _. intervals.new ≡ intervals.old) }
    ensures loads { MatchResult result (λ _. load_rows loads.new ≡ loads_after call.now (interval_rows intervals.old) (load_rows loads.old)) (λ _. loads.new ≡ loads.old) }
{
    let taken = taken_load(call)?;
    read(intervals, loads, &taken)
}
