// The inputs of one half hour's figures, by number: what was read of each facility and load, the contracts and the
// vesting rows, with the prices, the two standing accounts and the pending sum.
ghost use Rattle.std.specs.Prelude.{◌≡◌, ◌&&◌, replicate, pos, is_ok, None, MatchResult};
ghost use Rattle.units.specs.Ranges.{Account, Around, Within, inside, account_range, balance_range, price_range, rate_range};
ghost use Rattle.units.specs.declared.refusal.Refusal.TheVariants.{OutOfRange};

use crate::entries::{Contract, Facility, Load, Vesting};
use units::range::{ACCOUNT, PRICE, RATE};
use units::{ACCOUNTS, CONTRACTS, FACILITIES, Money, Price, Refusal};

// The vesting rows of one account.
#[derive(Clone, Copy)]
pub struct Tranches {
    pub base: Option<Vesting>,
    pub first: Option<Vesting>,
    pub second: Option<Vesting>,
}

// What holds for a whole half hour, whatever was read in it.
#[derive(Clone, Copy)]
pub struct Terms {
    // the pool price (USEP)
    pub usep: Price,
    // the fee rate, of both administrative rates together
    pub rate: Price,
    // the account that takes the other side of every vesting contract
    pub counterparty: u16,
    // the account that the fees go to
    pub operator: u16,
    // the total of adjustments that no final has settled yet
    pub pending: Money,
    ghost usep_ok: { Around 1000000 usep.0 },
    ghost rate_ok: { Within (pos 0) (pos 100000) rate.0 },
    ghost counterparty_ok: { Account counterparty },
    ghost operator_ok: { Account operator },
    ghost pending_ok: { Around 100000000000000000 pending.0 },
}

// Two of the lists are by account, since a load and vesting rows come from different registers, each in a pass of its own.
#[derive(Clone, Copy)]
pub struct Inputs {
    pub terms: Terms,
    pub facilities: [Option<Facility>; FACILITIES],
    pub loads: [Option<Load>; ACCOUNTS],
    pub contracts: [Option<Contract>; CONTRACTS],
    pub vestings: [Tranches; ACCOUNTS],
}

impl Terms {
    // The terms of a half hour at these prices, with nothing pending.
    pub fn new(usep: i64, rate: i64, counterparty: i64, operator: i64) -> Result<Terms, Refusal>
        ensures made { MatchResult result (λ t. (t.usep.0 ≡ usep) × (t.rate.0 ≡ rate) × (pos t.counterparty ≡ counterparty) × (pos t.operator ≡ operator) × (t.pending.0 ≡ pos 0)) (λ e. e ≡ OutOfRange) }
        ensures accepts { is_ok result ≡ (inside price_range usep && inside rate_range rate && inside account_range counterparty && inside account_range operator) }
    {
        let usep = Price(PRICE.take(usep)?);
        let rate = Price(RATE.take(rate)?);
        let counterparty = ACCOUNT.take(counterparty)? as u16;
        let operator = ACCOUNT.take(operator)? as u16;
        Ok(Terms {
            usep,
            rate,
            counterparty,
            operator,
            pending: Money(0),
        })
    }

    // The same terms with that much pending.
    pub fn with_pending(mut self, pending: Money) -> Result<Terms, Refusal>
        ensures made { MatchResult result (λ t. (t.usep ≡ self.usep) × (t.rate ≡ self.rate) × (t.counterparty ≡ self.counterparty) × (t.operator ≡ self.operator) × (t.pending ≡ pending)) (λ e. e ≡ OutOfRange) }
        ensures accepts { is_ok result ≡ inside balance_range pending.0 }
    {
        if !pending.is_within_limit() {
            return Err(Refusal::OutOfRange);
        }
        self.pending = pending;
        Ok(self)
    }
}

impl Inputs {
    // The inputs of a half hour of which nothing has been read yet.
    pub fn new(terms: &Terms) -> Inputs
        ensures terms { result.terms ≡ terms.now }
        ensures nothing { (result.facilities ≡ replicate 128 None) × (result.loads ≡ replicate 96 None) × (result.contracts ≡ replicate 64 None) × (result.vestings ≡ replicate 96 (record { base = None; first = None; second = None })) }
    {
        let none = Tranches {
            base: None,
            first: None,
            second: None,
        };
        Inputs {
            terms: *terms,
            facilities: [None; FACILITIES],
            loads: [None; ACCOUNTS],
            contracts: [None; CONTRACTS],
            vestings: [none; ACCOUNTS],
        }
    }
}
