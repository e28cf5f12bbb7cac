// Calls as they are handed in: plain numbers, held to no range yet. The house holds each number to its range.
#![tactic(auto)]

use units::ACCOUNTS;

// The opening of a house: its number, the counterparty account, the operator account, and each account's participant.
#[derive(Clone, Copy)]
pub struct HouseCall {
    pub number: i64,
    pub counterparty: i64,
    pub operator: i64,
    // by rising account
    pub participants: [i64; ACCOUNTS],
}

// The opening of an interval at its pool price (USEP) and its fee rate.
#[derive(Clone, Copy)]
pub struct IntervalCall {
    pub day: i64,
    pub interval: i64,
    pub usep: i64,
    pub rate: i64,
}

// A facility's reading, with the stamp at which it was handed in.
#[derive(Clone, Copy)]
pub struct FacilityCall {
    pub day: i64,
    pub interval: i64,
    pub facility: i64,
    pub account: i64,
    pub mep: i64,
    pub ieq: i64,
    pub days: i64,
    pub minute: i64,
}

// A load's reading, with the stamp at which it was handed in.
#[derive(Clone, Copy)]
pub struct LoadCall {
    pub day: i64,
    pub interval: i64,
    pub account: i64,
    pub weq: i64,
    pub wfq: i64,
    pub days: i64,
    pub minute: i64,
}

// A bilateral contract.
#[derive(Clone, Copy)]
pub struct ContractCall {
    pub day: i64,
    pub interval: i64,
    pub contract: i64,
    pub seller: i64,
    pub buyer: i64,
    pub baq: i64,
    pub bwf: i64,
    pub bif: i64,
}

// One tranche of an account's vesting contract.
#[derive(Clone, Copy)]
pub struct VestingCall {
    pub day: i64,
    pub interval: i64,
    pub account: i64,
    pub tranche: i64,
    pub price: i64,
    pub quantity: i64,
}

// A half hour, and the stamp at which something is done to it.
#[derive(Clone, Copy)]
pub struct StampedCall {
    pub day: i64,
    pub interval: i64,
    pub days: i64,
    pub minute: i64,
}

// A half hour.
#[derive(Clone, Copy)]
pub struct HalfHourCall {
    pub day: i64,
    pub interval: i64,
}

// A stamp: business days after the trading day, and the minute of that day.
#[derive(Clone, Copy)]
pub struct StampCall {
    pub days: i64,
    pub minute: i64,
}
