// A used line of a passbook: the account, the amount that was posted, and the balance after it.
ghost use Rattle.std.specs.Prelude.{◌≡◌, ◌&&◌, is_ok, MatchResult};
ghost use Rattle.units.specs.Ranges.{Account, Around};
ghost use Rattle.units.specs.declared.refusal.Refusal.TheVariants.{OutOfRange};
ghost use Rattle.book.specs.Meaning.{amount_limit, balance_limit, is_account, is_around, is_balance};

use units::range::ACCOUNT;
use units::{BALANCE, Money, Range, Refusal};

// An amount that leads from one balance to another.
const AMOUNT: Range = Range {
    low: 2 * BALANCE.low,
    high: 2 * BALANCE.high,
};

#[derive(Clone, Copy)]
pub struct Entry {
    pub account: u16,
    pub amount: Money,
    pub after: Money,
    ghost account_ok: { Account account },
    ghost amount_ok: { Around amount_limit amount.0 },
    ghost after_ok: { Around balance_limit after.0 },
}

impl Entry {
    pub fn new(account: u16, amount: Money, after: Money) -> Result<Entry, Refusal>
        ensures made { MatchResult result (λ e. (e.account ≡ account) × (e.amount ≡ amount) × (e.after ≡ after)) (λ e. e ≡ OutOfRange) }
        ensures accepts { is_ok result ≡ (is_account account && (is_around amount_limit amount.0 && is_balance after.0)) }
    {
        if ACCOUNT.holds(account as i64) && amount.is_within(AMOUNT) && after.is_within(BALANCE) {
            Ok(Entry {
                account,
                amount,
                after,
            })
        } else {
            Err(Refusal::OutOfRange)
        }
    }
}
