// The range of every number that is handed in. Numbers come in as they were written and are held to their range before
// anything is made of them.
ghost use Rattle.std.specs.Prelude.{◌≡◌, is_ok, MatchResult};
ghost use Rattle.units.specs.Ranges.{Within, inside};
ghost use Rattle.units.specs.declared.refusal.Refusal.TheVariants.{OutOfRange};

use crate::refusal::Refusal;

#[derive(Clone, Copy, PartialEq, Eq, Debug)]
pub struct Range {
    pub low: i64,
    pub high: i64,
}

impl Range {
    // The number, held to its range as it is handed in.
    pub fn take(self, z: i64) -> Result<i64, Refusal>
        ensures made { MatchResult result (λ n. (n ≡ z) × Within self.low self.high n) (λ e. e ≡ OutOfRange) }
        ensures accepts { is_ok result ≡ inside self z }
    {
        if self.holds(z) {
            Ok(z)
        } else {
            Err(Refusal::OutOfRange)
        }
    }

    // Whether z lies in the range, both ends included.
    pub fn holds(self, z: i64) -> bool
        ensures { result ≡ inside self z }
    {
        self.holds_wide(z as i128)
    }

    // The same of a wide number, such as a sum of money.
    pub(crate) fn holds_wide(self, z: i128) -> bool
        ensures { result ≡ inside self z }
    {
        self.low as i128 <= z && z <= self.high as i128
    }
}

// The farthest from zero that a balance or the pending sum may lie, in millicents.
pub const BALANCE_LIMIT: i128 = 100_000_000_000_000_000;
// A balance and the pending sum.
pub const BALANCE: Range = Range {
    low: -BALANCE_LIMIT as i64,
    high: BALANCE_LIMIT as i64,
};

// How many accounts a pool has; accounts and participants are numbered from 1.
pub const ACCOUNTS: usize = 96;
// How many facilities a pool has, and how many bilateral contracts a half hour may have, numbered from 1.
pub const FACILITIES: usize = 128;

pub const CONTRACTS: usize = 64;

pub const HOUSE: Range = Range {
    low: 0,
    high: 65_535,
};

pub const DAY: Range = Range {
    low: 1,
    high: 40_000,
};

pub const INTERVAL: Range = Range { low: 1, high: 48 };

pub const ACCOUNT: Range = Range {
    low: 1,
    high: ACCOUNTS as i64,
};

pub const FACILITY: Range = Range {
    low: 1,
    high: FACILITIES as i64,
};

pub const CONTRACT: Range = Range {
    low: 1,
    high: CONTRACTS as i64,
};

pub const TRANCHE: Range = Range { low: 0, high: 2 };
// The pool price, a facility's price and a vesting price.
pub const PRICE: Range = Range {
    low: -1_000_000,
    high: 1_000_000,
};
// The fee rate.
pub const RATE: Range = Range {
    low: 0,
    high: 100_000,
};
// Injected energy.
pub const INJECTION: Range = Range {
    low: -10_000_000,
    high: 10_000_000,
};
// Every other quantity of energy.
pub const QUANTITY: Range = Range {
    low: 0,
    high: 10_000_000,
};
// Fractions, in hundredths of a percent.
pub const FRACTION: Range = Range {
    low: 0,
    high: 10_000,
};
// The two parts of a stamp.
pub const DAYS: Range = Range {
    low: 0,
    high: 1_000,
};

pub const MINUTE: Range = Range {
    low: 0,
    high: 1_439,
};
// The uplift rate of a statement.
pub const UPLIFT: Range = Range {
    low: -100_000_000,
    high: 100_000_000,
};
