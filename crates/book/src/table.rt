// The table book: one balance for each account, zero at first, and always room for a million postings.
ghost use Rattle.book.specs.Meaning.{Zeros};
ghost use Rattle.book.specs.Statement.{amount_of};

use crate::balances::Balances;
use crate::interface::Book;
use crate::limits::raised;
use units::{Money, Refusal};

#[derive(Drop)]
pub struct TableBook {
    balances: Balances,
}

impl TableBook {
    pub fn new() -> TableBook
        ensures { Zeros (amount_of result.balances.cells) }
    {
        TableBook {
            balances: Balances::zero(),
        }
    }
}

impl Book for TableBook {
    ghost held = { λ s. amount_of s.balances.cells };

    ghost room = { λ _. 1000000 };

    ghost holds = { λ _ _. Unit {0} };

    ghost takes = { λ _ _ _ _. Unit {0} };

    ghost bounded = { λ s a _. s.balances.bounded a };

    fn balance(&self, account: u16) -> Result<Money, Refusal> {
        self.balances.of(account)
    }

    fn places(&self) -> usize {
        1_000_000
    }

    fn post(&mut self, account: u16, amount: Money) -> Result<(), Refusal> {
        let balance = self.balance(account)?;
        let after = raised(balance, amount)?;
        self.balances.put(account, after);
        Ok(())
    }
}
