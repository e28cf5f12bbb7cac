// The inputs of one half hour's figures, gathered in one pass over each register.
ghost use Rattle.std.specs.Prelude.{◌≡◌, ℕ, ◌<◌};
ghost use Rattle.std.specs.Option.{option_map};
ghost use Rattle.records.specs.Meaning.{basis_of, bilateral_of, injection_of, numbered, tranche, tranches_of, vested_of, withdrawal_of};
ghost use Rattle.units.specs.Ranges.{accounts};
ghost use Rattle.gather.specs.Gathered.{base_injection, base_withdrawal, basis_at, contract_in, contract_key, facility_key, load_key, three_at, vested_in, vesting_key};
ghost use Rattle.register.specs.Keys.{numbered_key, tranche_key};
ghost use Rattle.register.specs.Rows.{lookup};

use crate::gather::gather;
use crate::handed::Rows;
use records::{Contract, Facility, Inputs, Load, Terms, Tranches, Vesting};
use rows::contract::ContractRow;
use rows::facility::FacilityReading;
use rows::load::LoadReading;
use rows::vesting::VestingRow;
use std::array;
use units::{ACCOUNTS, CONTRACTS, FACILITIES, HalfHour};

// A facility as it was first read. No `From`, here and below: rows and records are types of other crates.
fn base_facility(row: &FacilityReading) -> Facility
    ensures { injection_of result ≡ base_injection row.now }
{
    Facility {
        account: row.account,
        mep: row.mep,
        ieq: row.ieq.base(),
    }
}

// A load as it was first read.
fn base_load(row: &LoadReading) -> Load
    ensures { withdrawal_of result ≡ base_withdrawal row.now }
{
    Load {
        weq: row.weq.base(),
        wfq: row.wfq.base(),
    }
}

// The contract of a row.
fn contract_in(row: &ContractRow) -> Contract
    ensures { bilateral_of result ≡ contract_in row.now }
{
    Contract {
        seller: row.seller,
        buyer: row.buyer,
        baq: row.baq,
        bwf: row.bwf,
        bif: row.bif,
    }
}

// The tranche of a row.
fn vested_in(row: &VestingRow) -> Vesting
    ensures { vested_of result ≡ vested_in row.now }
{
    Vesting {
        price: row.price,
        quantity: row.quantity,
    }
}

// Each of the four below says what the gathering of one register means; the pass itself is one function.

// The facilities by number.
fn facilities_of(
    rows: &[Option<FacilityReading>],
    half_hour: HalfHour,
) -> [Option<Facility>; FACILITIES]
    ensures { (n : ℕ) → option_map injection_of (numbered result n) ≡ option_map base_injection (lookup facility_key rows.now (numbered_key half_hour.day half_hour.interval n)) }
{
    gather(rows, half_hour, base_facility)
}

// The loads by account.
fn loads_of(rows: &[Option<LoadReading>], half_hour: HalfHour) -> [Option<Load>; ACCOUNTS]
    ensures { (n : ℕ) → option_map withdrawal_of (numbered result n) ≡ option_map base_withdrawal (lookup load_key rows.now (numbered_key half_hour.day half_hour.interval n)) }
{
    gather(rows, half_hour, base_load)
}

// The bilateral contracts by number.
fn contracts_of(rows: &[Option<ContractRow>], half_hour: HalfHour) -> [Option<Contract>; CONTRACTS]
    ensures { (n : ℕ) → option_map bilateral_of (numbered result n) ≡ option_map contract_in (lookup contract_key rows.now (numbered_key half_hour.day half_hour.interval n)) }
{
    gather(rows, half_hour, contract_in)
}

// How many tranches all accounts have.
const TRANCHES: usize = 3 * ACCOUNTS;

// The three tranches of the account at place k, of a list in which each account has three.
fn three_at(flat: &[Option<Vesting>; TRANCHES], k: usize) -> Tranches
    requires { k < accounts }
    ensures { result ≡ three_at flat.now k }
{
    // read through references: with copies of the three the list is too large for the proof's search
    let base = &flat[3 * k];
    let first = &flat[3 * k + 1];
    let second = &flat[3 * k + 2];
    Tranches {
        base: *base,
        first: *first,
        second: *second,
    }
}

// The vesting rows by account and tranche.
fn vestings_of(rows: &[Option<VestingRow>], half_hour: HalfHour) -> [Tranches; ACCOUNTS]
    ensures { (a n : ℕ) → option_map vested_of (tranche (tranches_of result a) n) ≡ option_map vested_in (lookup vesting_key rows.now (tranche_key half_hour.day half_hour.interval a n)) }
{
    let flat = gather(rows, half_hour, vested_in);
    array::from_fn(|k| three_at(&flat, k))
}

// What the figures of the half hour are worked from: for every number, what the key's row holds before any correction.
pub fn inputs_of(terms: &Terms, half_hour: HalfHour, rows: &Rows) -> Inputs
    ensures { basis_of result ≡ basis_at terms.now half_hour.day half_hour.interval rows.now.readings.facilities.now rows.now.readings.loads.now rows.now.contracts.now rows.now.vestings.now }
{
    Inputs {
        terms: *terms,
        facilities: facilities_of(rows.readings.facilities, half_hour),
        loads: loads_of(rows.readings.loads, half_hour),
        contracts: contracts_of(rows.contracts, half_hour),
        vestings: vestings_of(rows.vestings, half_hour),
    }
}
