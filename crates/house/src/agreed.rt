// Bilateral contracts and vesting rows, which are taken while the interval is being read.
ghost use Rattle.std.specs.Prelude.{◌≡◌, [], ◌∷◌, MatchResult, ◌==◌};
ghost use Rattle.units.specs.Checks.{first_met};
ghost use Rattle.units.specs.Refusals.{answer_number};
ghost use Rattle.register.specs.Rows.{placed};
ghost use Rattle.rows.specs.Meaning.{contract_named, contract_rows, interval_rows, vesting_named, vesting_rows};
ghost use Rattle.house.specs.Calls.{contract_given, vesting_given};
ghost use Rattle.house.specs.Open.{check, if_open, open_at};
ghost use Rattle.house.specs.Rows.{agreed_checks, contract_checks, reading_phase, vesting_checks};
ghost use Rattle.house.specs.State.{house_says, key_of};

use crate::open::{find_open, put_row};
use crate::state::House;
use crate::taken::{taken_contract, taken_vesting};
use calls::{ContractCall, VestingCall};
use register::Row;
use rows::{ContractRow, Interval, Phase, VestingRow};
use units::{HalfHour, Refusal};

// Refused by 2 where one account stands on both sides.
fn check_apart(one: u16, other: u16) -> Result<(), Refusal>
    ensures { answer_number result ≡ first_met (check 2 (one == other) ∷ []) }
{
    if one == other {
        return Err(Refusal::SameParty);
    }
    Ok(())
}

// Refused by 4 where the interval is not open, and by 7 where it is past its reading phase.
fn check_reading(intervals: &[Option<Interval>], half_hour: HalfHour) -> Result<(), Refusal>
    ensures { answer_number result ≡ first_met (if_open (open_at (interval_rows intervals.now) (key_of half_hour)) reading_phase) }
{
    let opened = find_open(intervals, half_hour)?;
    if opened.row.phase != Phase::Reading {
        return Err(Refusal::WrongPhase);
    }
    Ok(())
}

// Puts a row that two accounts agree on: refused by 2 where they are one, by 4 or 7 where its interval is not being read,
// and by 10 where there is no place for it.
fn agree<R: Row>(
    intervals: &[Option<Interval>],
    rows: &mut [Option<R>],
    row: R,
    one: u16,
    other: u16,
) -> Result<(), Refusal>
    ensures answer { answer_number result ≡ first_met (agreed_checks R.Row.carried one other row (interval_rows intervals.now) rows.old) }
    ensures rows { MatchResult result (λ _. rows.new ≡ placed R.Row.carried rows.old row) (λ _. rows.new ≡ rows.old) }
{
    check_apart(one, other)?;
    check_reading(intervals, row.half_hour())?;
    put_row(rows, row)
}

// Takes a bilateral contract.
pub fn take_contract(
    intervals: &[Option<Interval>],
    contracts: &mut [Option<ContractRow>],
    call: &ContractCall,
) -> Result<(), Refusal>
    ensures answer { answer_number result ≡ first_met (contract_checks call.now (interval_rows intervals.now) (contract_rows contracts.old)) }
    ensures contracts { MatchResult result (λ _. contract_rows contracts.new ≡ placed contract_named (contract_rows contracts.old) (contract_given call.now)) (λ _. contracts.new ≡ contracts.old) }
{
    let row = taken_contract(call)?;
    agree(intervals, contracts, row, row.seller, row.buyer)
}

impl House {
    // Takes a vesting row; the counterparty account has none of its own.
    pub fn take_vesting(
        &self,
        intervals: &[Option<Interval>],
        vestings: &mut [Option<VestingRow>],
        call: &VestingCall,
    ) -> Result<(), Refusal>
        ensures answer { answer_number result ≡ first_met (vesting_checks call.now (house_says self.now).counterparty (interval_rows intervals.now) (vesting_rows vestings.old)) }
        ensures vestings { MatchResult result (λ _. vesting_rows vestings.new ≡ placed vesting_named (vesting_rows vestings.old) (vesting_given call.now)) (λ _. vestings.new ≡ vestings.old) }
    {
        let row = taken_vesting(call)?;
        let counterparty = self.opening.counterparty;
        agree(intervals, vestings, row, row.key.account, counterparty)
    }
}
