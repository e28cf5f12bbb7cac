// The cent layer: a book over any other book. It keeps each exact balance, and has the book below hold it in whole
// cents, cut towards zero. What the book below holds is called the payable.
ghost use Rattle.std.specs.Prelude.{◌≡◌, ℕ, ◌<◌, ◌-ℤ◌, MatchResult};
ghost use Rattle.units.specs.Ranges.{Account, Around};
ghost use Rattle.book.specs.Cents.{whole_cents, InCents, own_first, Paid};
ghost use Rattle.book.specs.Meaning.{balance_limit, Zeros, Shown, Raised};
ghost use Rattle.book.specs.Statement.{amount_of};

use crate::balances::Balances;
use crate::interface::Book;
use crate::limits::raised;
use units::{Money, Refusal, div_towards_zero};

#[derive(Drop)]
pub struct CentLayer<B> {
    exact: Balances,
    below: B,
}

impl<B: Book> CentLayer<B> {
    // A layer of zeros over a book.
    #[tactic(auto, unfolding(crate::specs::Cents::whole_cents))]
    pub fn over(below: B) -> CentLayer<B>
        ensures zeros { Zeros (amount_of result.exact.cells) }
        ensures kept { result.below ≡ below }
        ensures in_cents { Zeros (B.held below) → InCents (B.held result.below) (amount_of result.exact.cells) }
    {
        CentLayer {
            exact: Balances::zero(),
            below,
        }
    }

    // What the book below holds for an account.
    pub fn payable(&self, account: u16) -> Result<Money, Refusal>
        ensures { Shown (B.held self.now.below) account result }
    {
        self.below.balance(account)
    }

    // Ends the layer, and hands the book below back.
    pub fn into_below(self) -> B
        ensures { result ≡ self.below }
    {
        let CentLayer { exact: _, below } = self;
        below
    }
}

// A balance in whole cents, cut towards zero.
#[tactic(auto, unfolding(crate::specs::Cents::whole_cents))]
fn cut_to_cents(balance: Money) -> Money
    ensures { result.0 ≡ whole_cents balance.0 }
{
    Money(div_towards_zero(balance.0, 1000).unwrap())
}

// Has a book hold that many cents for an account; where it already does, nothing is posted.
fn hold_cents<B: Book>(book: &mut B, account: u16, cents: Money) -> Result<(), Refusal>
    requires { (Account account) × ((Around balance_limit cents.0) × (0 < B.room book.old)) }
    ensures meaning { MatchResult result (λ _. Raised (B.held book.old) (B.room book.old) account (cents.0 -ℤ B.held book.old account) (B.held book.new) (B.room book.new)) (λ _. ⊥) }
    ensures idle { B.held book.old account ≡ cents.0 → book.new ≡ book.old }
    ensures conditions { (i : ℕ) → B.holds i book.old → B.holds i book.new }
{
    let payable = book.balance(account)?;
    if payable != cents {
        book.post(account, cents - payable)?;
    }
    Ok(())
}

impl<B: Book> Book for CentLayer<B> {
    ghost held = { λ s. amount_of s.exact.cells };

    ghost room = { λ s. B.Book.room s.below };

    ghost holds = { λ i s. own_first (InCents (B.Book.held s.below) (amount_of s.exact.cells)) (λ j. B.Book.holds j s.below) i };

    ghost takes = { λ s a _ t. Paid B.Book.held a (amount_of t.exact.cells a) s.below t.below };

    ghost bounded = { λ s a _. s.exact.bounded a };

    fn balance(&self, account: u16) -> Result<Money, Refusal> {
        self.exact.of(account)
    }

    fn places(&self) -> usize {
        self.below.places()
    }

    fn post(&mut self, account: u16, amount: Money) -> Result<(), Refusal> {
        let balance = self.balance(account)?;
        let after = raised(balance, amount)?;
        if self.below.places() == 0 {
            return Err(Refusal::TooFewPlaces);
        }
        hold_cents(&mut self.below, account, cut_to_cents(after))?;
        self.exact.put(account, after);
        Ok(())
    }
}
