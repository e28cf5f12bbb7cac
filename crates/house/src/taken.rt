// What a call hands in, held to its ranges: refused by 1 where a number lies outside.
ghost use Rattle.std.specs.Prelude.{◌≡◌, not, [], ◌∷◌, IfOk};
ghost use Rattle.units.specs.Checks.{first_met};
ghost use Rattle.units.specs.Refusals.{answer_number};
ghost use Rattle.rows.specs.Meaning.{contract_says, facility_says, interval_says, load_says, vesting_says};
ghost use Rattle.house.specs.Calls.{contract_given, interval_given, is_contract, is_facility, is_interval, is_load, is_vesting, vesting_given};
ghost use Rattle.house.specs.Open.{check};
ghost use Rattle.house.specs.Readings.{facility_handed, handed, load_handed};

use crate::stamped::Stamped;
use calls::{ContractCall, FacilityCall, IntervalCall, LoadCall, VestingCall};
use rows::{ContractRow, FacilityReading, Interval, LoadReading, VestingRow};
use units::{HalfHour, Refusal, Stamp};

// No `TryFrom`: calls and rows are types of other crates.

pub(crate) fn taken_facility(call: &FacilityCall) -> Result<Stamped<FacilityReading>, Refusal>
    ensures answer { answer_number result ≡ first_met (check 1 (not (is_facility call.now)) ∷ []) }
    ensures handed { IfOk result (λ t. handed facility_says t ≡ facility_handed call.now) }
{
    let half_hour = HalfHour::new(call.day, call.interval)?;
    let row = FacilityReading::new(half_hour, call.facility, call.account, call.mep, call.ieq)?;
    let stamp = Stamp::new(call.days, call.minute)?;
    Ok(Stamped { row, stamp })
}

pub(crate) fn taken_load(call: &LoadCall) -> Result<Stamped<LoadReading>, Refusal>
    ensures answer { answer_number result ≡ first_met (check 1 (not (is_load call.now)) ∷ []) }
    ensures handed { IfOk result (λ t. handed load_says t ≡ load_handed call.now) }
{
    let half_hour = HalfHour::new(call.day, call.interval)?;
    let row = LoadReading::new(half_hour, call.account, call.weq, call.wfq)?;
    let stamp = Stamp::new(call.days, call.minute)?;
    Ok(Stamped { row, stamp })
}

pub(crate) fn taken_interval(call: &IntervalCall) -> Result<Interval, Refusal>
    ensures answer { answer_number result ≡ first_met (check 1 (not (is_interval call.now)) ∷ []) }
    ensures row { IfOk result (λ t. interval_says t ≡ interval_given call.now) }
{
    let half_hour = HalfHour::new(call.day, call.interval)?;
    let row = Interval::open(half_hour, call.usep, call.rate)?;
    Ok(row)
}

pub(crate) fn taken_contract(call: &ContractCall) -> Result<ContractRow, Refusal>
    ensures answer { answer_number result ≡ first_met (check 1 (not (is_contract call.now)) ∷ []) }
    ensures row { IfOk result (λ t. contract_says t ≡ contract_given call.now) }
{
    let half_hour = HalfHour::new(call.day, call.interval)?;
    let row = ContractRow::new(
        half_hour,
        call.contract,
        call.seller,
        call.buyer,
        call.baq,
        call.bwf,
        call.bif,
    )?;
    Ok(row)
}

pub(crate) fn taken_vesting(call: &VestingCall) -> Result<VestingRow, Refusal>
    ensures answer { answer_number result ≡ first_met (check 1 (not (is_vesting call.now)) ∷ []) }
    ensures row { IfOk result (λ t. vesting_says t ≡ vesting_given call.now) }
{
    let half_hour = HalfHour::new(call.day, call.interval)?;
    let row = VestingRow::new(
        half_hour,
        call.account,
        call.tranche,
        call.price,
        call.quantity,
    )?;
    Ok(row)
}
