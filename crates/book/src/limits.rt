// The ranges of a book: which numbers are accounts, and how far a balance may lie from zero.
ghost use Rattle.std.specs.Prelude.{◌≡◌, ◌+◌, ◌<◌, ◌+ℤ◌, MatchResult};
ghost use Rattle.units.specs.Ranges.{Account, accounts, Around};
ghost use Rattle.units.specs.declared.refusal.Refusal.TheVariants.{OutOfRange, BalanceBeyondLimit};
ghost use Rattle.book.specs.Meaning.{balance_limit};

use units::range::ACCOUNT;
use units::{BALANCE, Money, Refusal};

// Where an account stands among all accounts, counted from 0.
pub fn account_index(account: u16) -> Result<usize, Refusal>
    ensures { MatchResult result (λ i. (i + 1 ≡ account) × (i < accounts)) (λ e. (e ≡ OutOfRange) × (Account account → ⊥)) }
{
    let number = ACCOUNT.take(account as i64)?;
    Ok(number as usize - 1)
}

// The balance after a posting, refused where it would pass the limit; the limit itself is a balance.
pub fn raised(balance: Money, amount: Money) -> Result<Money, Refusal>
    ensures { MatchResult result (λ m. (m.0 ≡ balance.0 +ℤ amount.0) × Around balance_limit m.0) (λ e. (e ≡ BalanceBeyondLimit) × (Around balance_limit (balance.0 +ℤ amount.0) → ⊥)) }
{
    balance
        .plus_within(amount, BALANCE)
        .ok_or(Refusal::BalanceBeyondLimit)
}
