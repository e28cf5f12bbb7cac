// The edges of every range, doubles, and a full register.
use register::register::Register;
use rows::contract::ContractRow;
use rows::facility::{FacilityKey, FacilityReading};
use rows::interval::Interval;
use rows::load::LoadReading;
use rows::vesting::VestingRow;
use std::test::Fail;
use units::HalfHour;

// Whether each number from one below the range to one above it is taken as it should be.
const EDGES: [(i64, bool); 4] = [
    (-1, false),
    (0, true),
    (10_000_000, true),
    (10_000_001, false),
];

#[test]
fn quantities_end_at_their_range(rt: HostRuntime) -> Result<(), Fail> {
    let h = HalfHour::new(1, 48)?;
    for (z, inside) in EDGES {
        assert!(rt; LoadReading::new(h, 96, z, 0).is_ok() == inside);
        assert!(rt; LoadReading::new(h, 1, 0, z).is_ok() == inside);
        assert!(rt; ContractRow::new(h, 64, 1, 96, z, 0, 10_000).is_ok() == inside);
        assert!(rt; VestingRow::new(h, 1, 2, 1_000_000, z).is_ok() == inside);
        assert!(rt; FacilityReading::new(h, 128, 1, -1_000_000, -z).is_ok() == (inside || z < 0));
    }
    Ok(())
}

#[test]
fn numbers_end_at_their_range(rt: HostRuntime) -> Result<(), Fail> {
    let h = HalfHour::new(40_000, 1)?;
    for (z, inside) in [(0, false), (1, true), (64, true), (65, false)] {
        assert!(rt; ContractRow::new(h, z, 1, 2, 0, 0, 0).is_ok() == inside);
    }
    for (z, inside) in [(0, false), (1, true), (128, true), (129, false)] {
        assert!(rt; FacilityReading::new(h, z, 1, 0, 0).is_ok() == inside);
    }
    for (z, inside) in [(-1, false), (0, true), (2, true), (3, false)] {
        assert!(rt; VestingRow::new(h, 1, z, 0, 0).is_ok() == inside);
    }
    for (z, inside) in [(-1, false), (0, true), (100_000, true), (100_001, false)] {
        assert!(rt; Interval::open(h, 0, z).is_ok() == inside);
    }
    Ok(())
}

#[test]
fn the_first_of_two_counts_and_a_full_register_refuses(rt: HostRuntime) -> Result<(), Fail> {
    let h = HalfHour::new(1, 1)?;
    let late = HalfHour::new(1, 2)?;
    let mut rows = [
        Some(FacilityReading::new(late, 1, 1, 0, 10)?),
        Some(FacilityReading::new(h, 1, 1, 0, 20)?),
        Some(FacilityReading::new(h, 1, 1, 0, 30)?),
    ];
    let mut register = Register { rows: &mut rows };
    let key = FacilityKey {
        half_hour: h,
        facility: 1,
    };
    match register.find(key) {
        Some(row) => assert!(rt; row.ieq.base == 20),
        None => return Err(Fail::new("no row")),
    }
    match register.put(FacilityReading::new(h, 2, 1, 0, 40)?) {
        Ok(()) => return Err(Fail::new("a row too many")),
        Err(refusal) => assert!(rt; refusal.number() == 10),
    }
    register.vacate(h);
    assert!(rt; register.find(key).is_none());
    assert!(rt;
        register
            .find(FacilityKey {
                half_hour: late,
                facility: 1,
            })
            .is_some()
    );
    assert!(rt; register.put(FacilityReading::new(h, 2, 1, 0, 40)?).is_ok());
    Ok(())
}
