// Reading and vacating the lines of a passbook.
ghost use Rattle.std.specs.Prelude.{◌≡◌, is_some, length, take_while};
ghost use Rattle.book.specs.Lines.{balance_in, used_lines, vacated};

use crate::entry::Entry;
use units::Money;

// How many lines stand before the first vacant one.
pub(crate) fn count_used(lines: &[Option<Entry>]) -> usize
    ensures { result ≡ length (take_while is_some lines.now) }
{
    lines.iter().take_while(|line| line.is_some()).count()
}

// The balance in an account's last used line, or zero.
pub(crate) fn last_balance(lines: &[Option<Entry>], account: u16) -> Money
    ensures { result.0 ≡ balance_in lines.now account }
{
    lines
        .iter()
        .take_while(|line| line.is_some())
        .filter_map(|line| *line)
        .filter(|entry| entry.account == account)
        .last()
        .map_or(Money(0), |entry| entry.after)
}

// Vacates every line after the first vacant one, and answers how many stand before it.
#[tactic(auto, using(crate::proofs::Used::counting))]
pub(crate) fn vacate_rest(lines: &mut [Option<Entry>]) -> usize
    ensures used { result ≡ used_lines lines.old }
    ensures after { lines.new ≡ vacated lines.old }
{
    let used = count_used(lines);
    lines[used..].fill(None);
    used
}
