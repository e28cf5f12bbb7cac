// The passbook: a book over a list of lines that its owner hands over. A line is vacant or has an entry, and the lines
// before the first vacant one are used. What it means is in its lines alone.
ghost use Rattle.std.specs.Prelude.{◌≡◌, ℕ, ◌-◌, ◌≤◌, Some, None, MatchResult, slice_index_or};
ghost use Rattle.units.specs.declared.refusal.Refusal.TheVariants.{OutOfRange};
ghost use Rattle.book.specs.Lines.{balance_around, balance_in, free_lines, used_lines, vacated, Filled, Tidy};
ghost use Rattle.book.specs.Meaning.{Zeros};

use crate::entry::Entry;
use crate::interface::Book;
use crate::limits::{account_index, raised};
use crate::lines::{last_balance, vacate_rest};
use units::{Money, Refusal};

#[derive(Drop)]
pub struct Passbook<'a> {
    // The lines stay their owner's, who hands them over and is handed them back: so they are no list of the book's own.
    lines: &'a mut [Option<Entry>],
    used: usize,
    ghost counted: { used ≡ used_lines lines.now },
    ghost tidy: { Tidy lines.now },
}

impl<'a> Passbook<'a> {
    // A passbook over these lines; every line after the first vacant one is vacated.
    #[tactic(auto, using(crate::proofs::Used::vacating))]
    pub fn over(lines: &'a mut [Option<Entry>]) -> Passbook<'a>
        ensures after { result.lines.now ≡ vacated lines.old }
        ensures balances { (a : ℕ) → balance_in result.lines.now a ≡ balance_in lines.old a }
        ensures places { free_lines result.lines.now ≡ free_lines lines.old }
        ensures zeros { used_lines lines.old ≡ 0 → Zeros (balance_in result.lines.now) }
    {
        let used = vacate_rest(lines);
        Passbook { lines, used }
    }

    // The used line of that number, counted from 1.
    #[tactic(auto, using(crate::proofs::Used::reading))]
    pub fn entry(&self, number: usize) -> Result<Entry, Refusal>
        ensures { MatchResult result (λ e. (1 ≤ number) × (number ≤ used_lines self.now.lines.now) × (slice_index_or self.now.lines.now (number - 1) None ≡ Some e)) (λ e. (e ≡ OutOfRange) × (1 ≤ number → number ≤ used_lines self.now.lines.now → ⊥)) }
    {
        let index = number.checked_sub(1).ok_or(Refusal::OutOfRange)?;
        match self.lines.get(index) {
            Some(Some(entry)) => Ok(*entry),
            _ => Err(Refusal::OutOfRange),
        }
    }

    // Ends the passbook, and hands its lines back.
    pub fn into_lines(self) -> &'a mut [Option<Entry>]
        ensures { result.now ≡ self.entry.lines.now }
    {
        let Passbook { lines, used: _ } = self;
        lines
    }
}

impl<'a> Book for Passbook<'a> {
    ghost held = { λ s. balance_in s.lines.now };

    ghost room = { λ s. free_lines s.lines.now };

    ghost holds = { λ _ _. Unit {0} };

    ghost takes = { λ s a amount t. Filled s.lines.now a amount t.lines.now };

    ghost bounded = { λ s a _. balance_around s.lines.now a };

    fn balance(&self, account: u16) -> Result<Money, Refusal> {
        let _ = account_index(account)?;
        let lines = &*self.lines;
        Ok(last_balance(lines, account))
    }

    #[tactic(auto, using(crate::proofs::Used::used_at_most))]
    fn places(&self) -> usize {
        self.lines.len() - self.used
    }

    fn post(&mut self, account: u16, amount: Money) -> Result<(), Refusal> {
        let balance = self.balance(account)?;
        let after = raised(balance, amount)?;
        if self.used >= self.lines.len() {
            return Err(Refusal::TooFewPlaces);
        }
        self.lines[self.used] = Some(Entry {
            account,
            amount,
            after,
        });
        self.used += 1;
        Ok(())
    }
}
