// What is gathered of a half hour: the first row of each key, and how far a correction moved it.
use gather::{Readings, Rows, inputs_of, moves_of};
use records::Terms;
use rows::contract::ContractRow;
use rows::correction::Correction;
use rows::facility::FacilityReading;
use rows::interval::Interval;
use rows::load::LoadReading;
use rows::vesting::VestingRow;
use std::test::Fail;
use units::HalfHour;

#[test]
fn the_first_row_of_a_key_is_gathered(rt: HostRuntime) -> Result<(), Fail> {
    let h = HalfHour::new(1, 1)?;
    let late = HalfHour::new(1, 2)?;
    let facilities = [
        Some(FacilityReading::new(late, 1, 1, 0, 10)?),
        None,
        Some(FacilityReading::new(h, 1, 1, 0, 20)?),
        Some(FacilityReading::new(h, 1, 1, 0, 30)?),
        Some(FacilityReading::new(late, 2, 1, 0, 40)?),
    ];
    let loads = [Some(LoadReading::new(h, 2, 50, 60)?)];
    let contracts = [Some(ContractRow::new(h, 64, 1, 2, 70, 0, 0)?)];
    let vestings = [Some(VestingRow::new(h, 96, 2, 0, 80)?)];
    let terms = Terms::new(100, 10, 4, 5)?;
    let rows = Rows {
        readings: Readings {
            facilities: &facilities,
            loads: &loads,
        },
        contracts: &contracts,
        vestings: &vestings,
    };
    let inputs = inputs_of(&terms, h, &rows);
    let late = &inputs.facilities[1];
    assert!(rt; late.is_none());
    let (Some(facility), Some(load)) = (inputs.facilities[0], inputs.loads[1]) else {
        return Err(Fail::new("no reading"));
    };
    let tranches = inputs.vestings[95];
    let (Some(contract), Some(vesting)) = (inputs.contracts[63], tranches.second) else {
        return Err(Fail::new("no contract or no vesting row"));
    };
    assert!(rt; facility.ieq.0 == 20 && load.wfq.0 == 60);
    assert!(rt; contract.baq.0 == 70 && vesting.quantity.0 == 80);
    Ok(())
}

#[test]
fn a_second_move_starts_from_the_first_correction(rt: HostRuntime) -> Result<(), Fail> {
    let h = HalfHour::new(1, 1)?;
    let first = FacilityReading::new(h, 1, 1, 0, 130)?;
    let second = FacilityReading::new(h, 1, 1, 0, 120)?;
    let read = FacilityReading::new(h, 1, 1, 0, 100)?;
    let corrected = read
        .with(Correction::First, &first)
        .with(Correction::Second, &second);
    let facilities = [Some(corrected)];
    let loads = [Some(LoadReading::new(h, 2, 50, 60)?)];
    let interval = Interval::open(h, 100, 10)?;
    let readings = Readings {
        facilities: &facilities,
        loads: &loads,
    };
    let by_first = moves_of(Correction::First, &interval, 5, &readings);
    let by_second = moves_of(Correction::Second, &interval, 5, &readings);
    let one = &by_first.facilities[0];
    let Some(one) = *one else {
        return Err(Fail::new("no first move"));
    };
    let two = &by_second.facilities[0];
    let Some(two) = *two else {
        return Err(Fail::new("no second move"));
    };
    let load = &by_second.loads[1];
    let Some(load) = *load else {
        return Err(Fail::new("no move of a load"));
    };
    assert!(rt; one.ieq.0 == 30 && two.ieq.0 == -10 && load.weq.0 == 0);
    Ok(())
}
