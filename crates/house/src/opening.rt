// What a house is opened with, held to its ranges. No opening has one account as counterparty and operator.
ghost use Rattle.std.specs.Prelude.{ℕ, ◌<◌, ◌≢◌, slice_index};
ghost use Rattle.units.specs.Ranges.{Account, accounts};

use units::ACCOUNTS;

#[derive(Clone, Copy)]
pub struct Opening {
    pub number: u16,
    // each account's participant, by rising account
    pub participants: [u16; ACCOUNTS],
    // the account that takes the other side of every vesting contract
    pub counterparty: u16,
    // the account that the fees go to
    pub operator: u16,
    ghost participants_ok: { (k : ℕ) → k < accounts → Account (slice_index participants k) },
    ghost counterparty_ok: { Account counterparty },
    ghost operator_ok: { Account operator },
    ghost apart: { counterparty ≢ operator },
}
