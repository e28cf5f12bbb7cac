// The posting of a whole statement over any book: first decided, with nothing changed, then posted.
ghost use Rattle.std.specs.Prelude.{◌≡◌, ℕ, ◌<◌, ◌≤◌, pos, ◌+ℤ◌, OnErr, OnOk, ◌≢◌};
ghost use Rattle.units.specs.Checks.{first_met};
ghost use Rattle.units.specs.Ranges.{accounts, Account, Around};
ghost use Rattle.units.specs.Refusals.{answer_number};
ghost use Rattle.book.specs.Meaning.{balance_limit};
ghost use Rattle.book.specs.Statement.{amount_of, postings, statement_checks, InTurn, Settled, Turn};

use crate::interface::Book;
use crate::limits::raised;
use units::{ACCOUNTS, Money, Refusal};

// Whether one amount can be posted to each account, by rising account, with no posting for a zero.
pub fn check_statement<B: Book>(book: &B, amounts: &[Money; ACCOUNTS]) -> Result<(), Refusal>
    ensures { answer_number result ≡ first_met (statement_checks (B.held book.now) (B.room book.now) (amount_of amounts.now)) }
{
    // A `for` with `?`, the plain form: it counts the postings on the way, which a closure would have to change.
    let mut needed: usize = 0;
    for (index, amount) in amounts.iter().enumerate() {
        let balance = book.balance(index as u16 + 1)?;
        let _ = raised(balance, *amount)?;
        if amount.0 != 0 {
            needed += 1;
        }
    }
    if book.places() < needed {
        return Err(Refusal::TooFewPlaces);
    }
    Ok(())
}

// One account's turn: its amount is posted unless it is zero. What is required is of a book and an amount together, which
// no type of either can hold; that conditions are kept is a fact of a change, which no type can hold either.
#[tactic(auto, using(crate::proofs::Posting::posted_ok))]
fn post_turn<B: Book>(book: &mut B, account: u16, amount: Money)
    requires account { Account account }
    requires balance { Around balance_limit (B.held book.old account +ℤ amount.0) }
    requires places { (amount.0 ≢ pos 0) → 0 < B.room book.old }
    ensures turn { Turn B.held B.room B.takes account amount.0 book.old book.new }
    ensures conditions { (i : ℕ) → B.holds i book.old → B.holds i book.new }
{
    if amount.0 != 0 {
        let _ = book.post(account, amount);
    }
}

// Posts one amount to each account, by rising account, with no posting for a zero.
fn post_each<B: Book>(book: &mut B, amounts: &[Money; ACCOUNTS])
    requires balances { (a : ℕ) → Account a → Around balance_limit (B.held book.old a +ℤ amount_of amounts.now a) }
    requires places { postings (amount_of amounts.now) ≤ B.room book.old }
    ensures meaning { Settled (B.held book.old) (B.room book.old) (amount_of amounts.now) (B.held book.new) (B.room book.new) }
    ensures turns { InTurn B.held B.room B.takes (amount_of amounts.now) accounts book.old book.new }
    ensures conditions { (i : ℕ) → B.holds i book.old → B.holds i book.new }
{
    // A `for`, the plain form: each turn changes the book, which a closure would have to capture and change.
    for (index, amount) in amounts.iter().enumerate() {
        post_turn(book, index as u16 + 1, *amount);
    }
}

// Posts a whole statement, or refuses it whole.
pub fn post_statement<B: Book>(book: &mut B, amounts: &[Money; ACCOUNTS]) -> Result<(), Refusal>
    ensures answer { answer_number result ≡ first_met (statement_checks (B.held book.old) (B.room book.old) (amount_of amounts.now)) }
    ensures accepted { OnOk result (Settled (B.held book.old) (B.room book.old) (amount_of amounts.now) (B.held book.new) (B.room book.new)) }
    ensures turns { OnOk result (InTurn B.held B.room B.takes (amount_of amounts.now) accounts book.old book.new) }
    ensures refused { OnErr result (book.new ≡ book.old) }
    ensures conditions { (i : ℕ) → B.holds i book.old → B.holds i book.new }
{
    check_statement(book, amounts)?;
    post_each(book, amounts);
    Ok(())
}
