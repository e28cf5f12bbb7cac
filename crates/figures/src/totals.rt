// Amounts by account: their total, and one account that takes the other side of all others.
ghost use Rattle.std.specs.Prelude.{◌≡◌, ℕ};
ghost use Rattle.units.specs.Ranges.{Account, Around, accounts};
ghost use Rattle.formulas.specs.Figures.{balanced};
ghost use Rattle.figures.specs.Meaning.{amount_at, Modest};
ghost use Rattle.formulas.specs.Sums.{sum};

use units::{ACCOUNTS, Money};

// An amount for each account, each so small that all of them together stay within the figures' bound.
#[derive(Clone, Copy)]
pub struct Amounts {
    // by rising account
    pub by_account: [Money; ACCOUNTS],
    ghost modest: { Modest by_account },
}

impl Amounts {
    // The sum of all accounts' amounts.
    pub fn total(&self) -> Money
        ensures value { result.0 ≡ sum accounts (amount_at self.now.by_account) }
        ensures bound { Around 1000000000000000000 result.0 }
    {
        let mut all = 0;
        for amount in &self.by_account {
            all += amount.0;
        }
        Money(all)
    }
}

// The amount of account x becomes minus the sum of the others'.
pub(crate) fn balance_out(amounts: &mut [Money; ACCOUNTS], x: u16)
    requires account { Account x }
    requires modest { Modest amounts.old }
    ensures { (a : ℕ) → Account a → amount_at amounts.new a ≡ balanced x (amount_at amounts.old) a }
{
    let before = Amounts {
        by_account: *amounts,
    };
    let all = before.total();
    let own = amounts[x as usize - 1];
    amounts[x as usize - 1] = Money(own.0 - all.0);
}
