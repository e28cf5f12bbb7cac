// The call that each word makes of the numbers after it. No `TryFrom`: lists of numbers and calls are types of others, and
// the order of the numbers is this format's.
ghost use Rattle.std.specs.Prelude.{◌≡◌};
ghost use Rattle.format.specs.Table.{by_word, contract_line, each_its_own, facility_line, house_line, interval_line, load_line, npsc_line, participants_of, preliminary_line, vesting_line, withdraw_line};

use crate::call::Call;
use calls::{
    ContractCall, FacilityCall, HalfHourCall, HouseCall, IntervalCall, LoadCall, StampedCall,
    VestingCall,
};
use std::array;
use units::ACCOUNTS;

// Each account as its own participant.
fn own_participants() -> [i64; ACCOUNTS]
    ensures { result ≡ each_its_own }
{
    array::from_fn(|k| k as i64 + 1)
}

// Each account's participant as given; where none is given, each account is its own.
fn participants(given: &[i64]) -> Option<[i64; ACCOUNTS]>
    ensures { result ≡ participants_of given.now }
{
    match given {
        [] => Some(own_participants()),
        _ => given.try_into().ok(),
    }
}

fn house(numbers: &[i64]) -> Option<Call>
    ensures { result ≡ house_line numbers.now }
{
    let &[number, counterparty, operator, ref given @ ..] = numbers else {
        return None;
    };
    Some(Call::House(HouseCall {
        number,
        counterparty,
        operator,
        participants: participants(given)?,
    }))
}

fn interval(numbers: &[i64]) -> Option<Call>
    ensures { result ≡ interval_line numbers.now }
{
    let &[day, interval, usep, rate] = numbers else {
        return None;
    };
    Some(Call::Interval(IntervalCall {
        day,
        interval,
        usep,
        rate,
    }))
}

fn facility(numbers: &[i64]) -> Option<Call>
    ensures { result ≡ facility_line numbers.now }
{
    let &[day, interval, facility, account, mep, ieq, days, minute] = numbers else {
        return None;
    };
    Some(Call::Facility(FacilityCall {
        day,
        interval,
        facility,
        account,
        mep,
        ieq,
        days,
        minute,
    }))
}

fn load(numbers: &[i64]) -> Option<Call>
    ensures { result ≡ load_line numbers.now }
{
    let &[day, interval, account, weq, wfq, days, minute] = numbers else {
        return None;
    };
    Some(Call::Load(LoadCall {
        day,
        interval,
        account,
        weq,
        wfq,
        days,
        minute,
    }))
}

fn contract(numbers: &[i64]) -> Option<Call>
    ensures { result ≡ contract_line numbers.now }
{
    let &[day, interval, contract, seller, buyer, baq, bwf, bif] = numbers else {
        return None;
    };
    Some(Call::Contract(ContractCall {
        day,
        interval,
        contract,
        seller,
        buyer,
        baq,
        bwf,
        bif,
    }))
}

fn vesting(numbers: &[i64]) -> Option<Call>
    ensures { result ≡ vesting_line numbers.now }
{
    let &[day, interval, account, tranche, price, quantity] = numbers else {
        return None;
    };
    Some(Call::Vesting(VestingCall {
        day,
        interval,
        account,
        tranche,
        price,
        quantity,
    }))
}

fn preliminary(numbers: &[i64]) -> Option<Call>
    ensures { result ≡ preliminary_line numbers.now }
{
    let &[day, interval, days, minute] = numbers else {
        return None;
    };
    Some(Call::Preliminary(StampedCall {
        day,
        interval,
        days,
        minute,
    }))
}

fn withdraw(numbers: &[i64]) -> Option<Call>
    ensures { result ≡ withdraw_line numbers.now }
{
    let &[day, interval] = numbers else {
        return None;
    };
    Some(Call::Withdraw(HalfHourCall { day, interval }))
}

fn npsc(numbers: &[i64]) -> Option<Call>
    ensures { result ≡ npsc_line numbers.now }
{
    let &[participant] = numbers else {
        return None;
    };
    Some(Call::Npsc(participant))
}

// The call that the word makes of the numbers; none where it is no word of the format, or they are not its numbers.
pub(crate) fn called(word: &[u8], numbers: &[i64]) -> Option<Call>
    ensures { result ≡ by_word word.now numbers.now }
{
    match word {
        b"house" => house(numbers),
        b"interval" => interval(numbers),
        b"facility" => facility(numbers),
        b"load" => load(numbers),
        b"contract" => contract(numbers),
        b"vesting" => vesting(numbers),
        b"preliminary" => preliminary(numbers),
        b"withdraw" => withdraw(numbers),
        b"npsc" => npsc(numbers),
        _ => None,
    }
}
