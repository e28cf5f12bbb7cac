// The posting of a settled half hour into a cent layer over a passbook.
ghost use Rattle.std.specs.Prelude.{◌<◌};
ghost use Rattle.units.specs.Ranges.{accounts};

use book::{Book, CentLayer, Entry, Passbook, post_statement};
use figures::Figures;
use std::array;
use units::{ACCOUNTS, Money, Refusal};

// What an account has after the posting: exactly, in millicents, and in whole cents, which is what is payable.
#[derive(Clone, Copy)]
pub struct Balance {
    pub exact: Money,
    pub payable: Money,
}

// What each account is credited, by rising account: a statement's own is private to it and is promised more of. Read in
// place: `map` moves the lines one by one, at sixty times the instructions.
fn credits(figures: &Figures) -> [Money; ACCOUNTS] {
    let mut amounts = [Money(0); ACCOUNTS];
    for (amount, line) in amounts.iter_mut().zip(&figures.lines) {
        *amount = line.nasc;
    }
    amounts
}

// What an account has, by its place, which is a plain index, as `try_from_fn` hands it out.
fn balance_at<B: Book>(book: &CentLayer<B>, k: usize) -> Result<Balance, Refusal>
    requires { k < accounts }
{
    let account = k as u16 + 1;
    Ok(Balance {
        exact: book.balance(account)?,
        payable: book.payable(account)?,
    })
}

// The balances of a cent layer over a book, once these amounts are posted to it.
fn balances_over<B: Book + Drop>(
    below: B,
    amounts: &[Money; ACCOUNTS],
) -> Result<[Balance; ACCOUNTS], Refusal> {
    let mut book = CentLayer::over(below);
    post_statement(&mut book, amounts)?;
    array::try_from_fn(|k| balance_at(&book, k))
}

// The balances of a new passbook, under a cent layer, once the half hour is posted.
pub(crate) fn balances_of(figures: &Figures) -> Result<[Balance; ACCOUNTS], Refusal> {
    let mut lines: [Option<Entry>; ACCOUNTS] = [None; ACCOUNTS];
    balances_over(Passbook::over(&mut lines), &credits(figures))
}
