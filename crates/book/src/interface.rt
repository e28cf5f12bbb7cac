// What every book shows, and nothing more.
ghost use Rattle.std.specs.Prelude.{◌≡◌, ℕ, ℤ, MatchResult};
ghost use Rattle.units.specs.Ranges.{Account, Around};
ghost use Rattle.book.specs.Meaning.{balance_limit, Shown, Posted};

use units::{Money, Refusal};

pub trait Book {
    // The balance of each account.
    ghost held: { Self → ℕ → ℤ };

    // The places: how many postings the book will still take.
    ghost room: { Self → ℕ };

    // The conditions that the book names on what it now holds, by number.
    ghost holds: { ℕ → Self → Type 0 };

    // What it means for the book itself to take one posting of an amount to an account.
    ghost takes: { Self → ℕ → ℤ → Self → Type 0 };

    // Every balance of an account lies within the limit.
    ghost bounded: { (s : Self) (a : ℕ) → Account a → Around balance_limit (held s a) };

    fn balance(&self, account: u16) -> Result<Money, Refusal>
        ensures { Shown (held self.now) account result };

    fn places(&self) -> usize
        ensures { result ≡ room self.now };

    fn post(&mut self, account: u16, amount: Money) -> Result<(), Refusal>
        ensures meaning { Posted (held self.old) (room self.old) account amount.0 result (held self.new) (room self.new) }
        ensures taken { MatchResult result (λ _. takes self.old account amount.0 self.new) (λ _. self.new ≡ self.old) }
        ensures conditions { (i : ℕ) → holds i self.old → holds i self.new };
}
