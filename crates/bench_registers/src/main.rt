// How long a put and a gathering take over registers of a given number of rows. With no number it only says how it is
// run.
#![tactic(auto)]

ghost use Rattle.std.specs.Prelude.{◌≤◌, length};

use anyhow::anyhow;
use gather::{Readings, Rows, inputs_of};
use records::{Inputs, Terms};
use register::register::Register;
use rows::contract::ContractRow;
use rows::facility::FacilityReading;
use rows::load::LoadReading;
use rows::vesting::VestingRow;
use std::env;
use std::time::Instant;
use units::HalfHour;

// How often each is done, for the mean.
const TIMES: u32 = 100;

// Four registers of as many rows each.
#[derive(Drop)]
struct Registers {
    facilities: Vec<Option<FacilityReading>>,
    loads: Vec<Option<LoadReading>>,
    contracts: Vec<Option<ContractRow>>,
    vestings: Vec<Option<VestingRow>>,
}

// The half hours in their order, from the first.
fn half_hour(at: u32) -> Option<HalfHour> {
    HalfHour::new(i64::from(at / 48) + 1, i64::from(at % 48) + 1).ok()
}

fn facility(i: u32) -> Option<FacilityReading> {
    FacilityReading::new(half_hour(i / 128)?, i64::from(i % 128) + 1, 1, 100, 200).ok()
}

fn load(i: u32) -> Option<LoadReading> {
    LoadReading::new(half_hour(i / 96)?, i64::from(i % 96) + 1, 200, 100).ok()
}

fn contract(i: u32) -> Option<ContractRow> {
    ContractRow::new(half_hour(i / 64)?, i64::from(i % 64) + 1, 1, 2, 100, 0, 0).ok()
}

fn vesting(i: u32) -> Option<VestingRow> {
    let account = i64::from(i / 3 % 96) + 1;
    VestingRow::new(half_hour(i / 288)?, account, i64::from(i % 3), 100, 200).ok()
}

fn filled(rt: &HostRuntime, rows: u32) -> anyhow::Result<Registers> {
    let heap = rt.alloc();
    let mut all = Registers {
        facilities: Vec::new(heap),
        loads: Vec::new(heap),
        contracts: Vec::new(heap),
        vestings: Vec::new(heap),
    };
    for i in 0..rows {
        all.facilities.push(facility(i))?;
        all.loads.push(load(i))?;
        all.contracts.push(contract(i))?;
        all.vestings.push(vesting(i))?;
    }
    Ok(all)
}

// Puts the last rows once more, each over its own.
fn put_last(rows: &mut [Option<FacilityReading>], count: u32) {
    for k in 0..TIMES {
        if let Some(row) = facility(count.saturating_sub(k + 1)) {
            let mut register = Register { rows: &mut *rows };
            let _ = register.put(row);
        }
    }
}

// How many places of a list are taken: a line of the library's, as the other program has it.
fn held<T>(slots: &[Option<T>]) -> usize
    ensures { result ≤ length slots.now }
{
    slots.iter().filter(|slot| slot.is_some()).count()
}

// How many rows the inputs were gathered from, so that no gathering is left out as unused.
fn used(inputs: &Inputs) -> usize
    ensures { result ≤ 384 }
{
    let bases = inputs
        .vestings
        .iter()
        .filter(|tranches| tranches.base.is_some())
        .count();
    held(&inputs.facilities) + held(&inputs.loads) + held(&inputs.contracts) + bases
}

// Gathers the first half hours in turn.
fn gather_each(terms: &Terms, all: &Registers) -> usize {
    let rows = Rows {
        readings: Readings {
            facilities: &all.facilities,
            loads: &all.loads,
        },
        contracts: &all.contracts,
        vestings: &all.vestings,
    };
    let mut count: usize = 0;
    for k in 0..TIMES {
        if let Some(at) = half_hour(k % 8) {
            let inputs = inputs_of(terms, at, &rows);
            count = count.saturating_add(used(&inputs));
        }
    }
    count
}

fn measure(rt: &HostRuntime, rows: u32) -> anyhow::Result<()> {
    let Ok(terms) = Terms::new(100, 10, 4, 5) else {
        return Err(anyhow!("terms outside their ranges"));
    };
    let mut all = filled(rt, rows)?;
    let start = Instant::now(rt)?;
    put_last(all.facilities.as_mut_slice(), rows);
    let put = start.elapsed(rt)?.as_nanos() / u128::from(TIMES);
    let start = Instant::now(rt)?;
    let count = gather_each(&terms, &all);
    let gathering = start.elapsed(rt)?.as_nanos() / u128::from(TIMES);
    println!(rt;
        "{rows} rows: a put {put} ns, a gathering {gathering} ns ({count} rows gathered)"
    )?;
    Ok(())
}

fn run(rt: &HostRuntime) -> anyhow::Result<()> {
    let mut words = env::args(rt)?;
    let _ = words.next();
    let Some(first) = words.next() else {
        println!(rt; "usage: bench_registers ROWS ..")?;
        return Ok(());
    };
    measure(rt, first.parse::<u32>()?)?;
    for word in words {
        measure(rt, word.parse::<u32>()?)?;
    }
    Ok(())
}

fn main(rt: HostRuntime) -> anyhow::Result<()> {
    run(&rt)
}
