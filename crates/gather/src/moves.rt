// How far each reading of a half hour moved by a correction, gathered in one pass over each register.
ghost use Rattle.std.specs.Prelude.{◌≡◌, ℕ, pos, ◌-ℤ◌, neg_ℤ};
ghost use Rattle.std.specs.Option.{option_map, unwrap_or};
ghost use Rattle.records.specs.Meaning.{numbered};
ghost use Rattle.records.specs.Moved.{injection_moved, moves_of, withdrawal_moved};
ghost use Rattle.gather.specs.Gathered.{facility_key, injection_by, load_key, moves_at, withdrawal_by};
ghost use Rattle.register.specs.Keys.{numbered_key};
ghost use Rattle.register.specs.Rows.{lookup};
ghost use Rattle.rows.specs.Values.{EachWithin, after_value, before_value};

use crate::gather::gather;
use crate::handed::Readings;
use records::{Differences, MovedFacility, MovedLoad};
use rows::correction::Correction;
use rows::facility::FacilityReading;
use rows::interval::Interval;
use rows::load::LoadReading;
use rows::metered::Metered;
use units::{ACCOUNTS, Energy, FACILITIES, HalfHour, Price};

// How far the correction moved a quantity.
fn moved(correction: Correction, quantity: &Metered) -> Energy
    requires { EachWithin (neg_ℤ (pos 10000000)) (pos 10000000) quantity.now }
    ensures { result.0 ≡ after_value correction quantity.now -ℤ before_value correction quantity.now }
{
    Energy(quantity.after(correction).0 - quantity.before(correction).0)
}

// How far the correction moved a facility's reading.
fn moved_facility(correction: Correction, row: &FacilityReading) -> MovedFacility
    ensures { injection_moved result ≡ injection_by correction row.now }
{
    MovedFacility {
        account: row.account,
        mep: row.mep,
        ieq: moved(correction, &row.ieq),
    }
}

// How far the correction moved a load's reading.
fn moved_load(correction: Correction, row: &LoadReading) -> MovedLoad
    ensures { withdrawal_moved result ≡ withdrawal_by correction row.now }
{
    MovedLoad {
        weq: moved(correction, &row.weq),
        wfq: moved(correction, &row.wfq),
    }
}

// The moves of the facilities by number.
fn facilities_of(
    correction: Correction,
    rows: &[Option<FacilityReading>],
    half_hour: HalfHour,
) -> [Option<MovedFacility>; FACILITIES]
    ensures { (n : ℕ) → option_map injection_moved (numbered result n) ≡ option_map (injection_by correction) (lookup facility_key rows.now (numbered_key half_hour.day half_hour.interval n)) }
{
    gather(rows, half_hour, |row| moved_facility(correction, row))
}

// The moves of the loads by account.
fn loads_of(
    correction: Correction,
    rows: &[Option<LoadReading>],
    half_hour: HalfHour,
) -> [Option<MovedLoad>; ACCOUNTS]
    ensures { (n : ℕ) → option_map withdrawal_moved (numbered result n) ≡ option_map (withdrawal_by correction) (lookup load_key rows.now (numbered_key half_hour.day half_hour.interval n)) }
{
    gather(rows, half_hour, |row| moved_load(correction, row))
}

// What an adjustment of the interval by a correction is worked from: how far each reading moved from the value before it
// to the value after it, and an uplift rate of 0 while the interval is not final.
pub fn moves_of(
    correction: Correction,
    interval: &Interval,
    operator: u16,
    readings: &Readings,
) -> Differences
    ensures { moves_of result ≡ moves_at (injection_by correction) (withdrawal_by correction) interval.now operator readings.now.facilities.now readings.now.loads.now }
{
    Differences {
        usep: interval.usep,
        rate: interval.rate,
        uplift: Price(interval.uplift.unwrap_or(0)),
        facilities: facilities_of(correction, readings.facilities, interval.half_hour),
        loads: loads_of(correction, readings.loads, interval.half_hour),
        operator,
    }
}
