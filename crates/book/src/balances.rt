// The balances of all accounts, by rising account.
ghost use Rattle.std.specs.Prelude.{◌≡◌, ℕ, pos, ◌≢◌};
ghost use Rattle.units.specs.Ranges.{Account, Around};
ghost use Rattle.book.specs.Meaning.{balance_limit, Shown};
ghost use Rattle.book.specs.Statement.{amount_of};

use crate::limits::account_index;
use units::{ACCOUNTS, Money, Refusal};

#[derive(Drop)]
pub struct Balances {
    cells: [Money; ACCOUNTS],
    ghost bounded: { (a : ℕ) → Around balance_limit (amount_of cells a) },
}

impl Balances {
    // Zero for every account.
    pub(crate) fn zero() -> Balances
        ensures { (a : ℕ) → amount_of result.cells a ≡ pos 0 }
    {
        Balances {
            cells: [Money(0); ACCOUNTS],
        }
    }

    // The balance of an account.
    pub(crate) fn of(&self, account: u16) -> Result<Money, Refusal>
        ensures { Shown (amount_of self.now.cells) account result }
    {
        let index = account_index(account)?;
        Ok(self.cells[index])
    }

    // Puts an account's balance, and leaves every other.
    pub(crate) fn put(&mut self, account: u16, balance: Money)
        requires { (Account account) × (Around balance_limit balance.0) }
        ensures here { amount_of self.new.cells account ≡ balance.0 }
        ensures elsewhere { (a : ℕ) → Account a → (a ≢ account) → amount_of self.new.cells a ≡ amount_of self.old.cells a }
    {
        self.cells[account as usize - 1] = balance;
    }
}
