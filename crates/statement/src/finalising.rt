// The final of a half hour, over any book: first decided, with nothing changed, then posted and written.
ghost use Rattle.std.specs.Prelude.{◌≡◌, ℕ, ◌≤◌, [], ◌∷◌, length, pos, IfOk, IfErr, Some, MatchResult, OnOk, nat_le, slice_set};
ghost use Rattle.units.specs.Checks.{first_met};
ghost use Rattle.units.specs.Ranges.{Account, accounts};
ghost use Rattle.units.specs.Refusals.{answer_number};
ghost use Rattle.units.specs.Stamps.{earlier, window};
ghost use Rattle.book.specs.Statement.{InTurn, Settled, amount_of};
ghost use Rattle.figures.specs.Settled.{FiguresAre, LinesAre};
ghost use Rattle.formulas.specs.Basis.{Basis};
ghost use Rattle.formulas.specs.Figures.{nasc_of};
ghost use Rattle.rows.specs.Meaning.{IntervalSaid, interval_rows};
ghost use Rattle.house.specs.Open.{check, open_at};
ghost use Rattle.house.specs.State.{house_says, with_pending};
ghost use Rattle.statement.specs.Finals.{final_checks, final_intervals, final_number, final_planning, statement_key};
ghost use Rattle.statement.specs.Gathered.{basis_by};
ghost use Rattle.statement.specs.Statements.{LinesWritten};

use crate::preliminary::{check_lines, figures_of, write_lines};
use crate::stamped::check_window;
use crate::token::{Refused, Statement};
use crate::withdrawal::find_preliminary;
use book::{Book, post_statement};
use calls::StampCall;
use figures::{Figures, Line};
use gather::Rows;
use house::open::At;
use house::{House, check_last};
use rows::{Interval, Phase};
use units::{ACCOUNTS, Money, Refusal, Stamp, Window};

// What keeps an interval from its final at that stamp.
fn check_stamp(interval: &Interval, stamp: Stamp) -> Result<(), Refusal>
    ensures { answer_number result ≡ first_met (check 6 (earlier stamp.days stamp.minute interval.now.last.days interval.now.last.minute) ∷ check 8 (nat_le (window stamp.days stamp.minute) 2) ∷ []) }
{
    check_last(interval, stamp)?;
    check_window(stamp, Window::Second)
}

// What each account is credited, by rising account.
fn credits(lines: &[Line; ACCOUNTS]) -> [Money; ACCOUNTS]
    ensures { (b : Basis) → LinesAre b lines.now → (a : ℕ) → Account a → amount_of result a ≡ nasc_of b a }
{
    lines.map(|line| line.nasc)
}

// What an accepted final posts and writes.
#[derive(Clone, Copy)]
struct Plan {
    interval: At<Interval>,
    figures: Figures,
}

fn plan_final(
    house: &House,
    intervals: &[Option<Interval>],
    rows: &Rows,
    count: usize,
    statement: &Statement,
    call: &StampCall,
) -> Result<Plan, Refusal>
    ensures answer { answer_number result ≡ first_met (final_planning statement.now call.now.days call.now.minute (house_says house.now).number (interval_rows intervals.now) count (basis_by (house_says house.now) rows.now)) }
    ensures intervals { IfOk result (λ p. interval_rows (slice_set intervals.now p.interval.index (Some p.interval.row)) ≡ final_intervals statement.now call.now.days call.now.minute (basis_by (house_says house.now) rows.now) (interval_rows intervals.now)) }
    ensures figures { IfOk result (λ p. (i : IntervalSaid) × ((open_at (interval_rows intervals.now) (statement_key statement.now) ≡ Some i) × FiguresAre (basis_by (house_says house.now) rows.now i) p.figures)) }
    ensures lines { OnOk result (accounts ≤ count) }
{
    let stamp = Stamp::new(call.days, call.minute)?;
    let opened = find_preliminary(house, intervals, statement)?;
    check_stamp(&opened.row, stamp)?;
    check_lines(count)?;
    let figures = figures_of(house, &opened.row, rows)?;
    let moved = opened.row.moved(Phase::Final, stamp);
    let row = moved.with_uplift(figures.uplift.rate)?;
    Ok(Plan {
        interval: At {
            index: opened.index,
            row,
        },
        figures,
    })
}

// Finalises a statement: writes its lines, posts what each account is credited, stores the uplift rate, and leaves nothing
// pending. Refused, it hands the statement back.
pub fn finalise<B: Book>(
    house: &mut House,
    intervals: &mut [Option<Interval>],
    rows: &Rows,
    lines: &mut [Line],
    book: &mut B,
    statement: Statement,
    call: &StampCall,
) -> Result<(), Refused>
    ensures answer { final_number result ≡ first_met (final_checks statement call.now.days call.now.minute (house_says house.old).number (interval_rows intervals.old) (length lines.old) (basis_by (house_says house.old) rows.now) (B.held book.old) (B.room book.old)) }
    ensures intervals { MatchResult result (λ _. interval_rows intervals.new ≡ final_intervals statement call.now.days call.now.minute (basis_by (house_says house.old) rows.now) (interval_rows intervals.old)) (λ _. intervals.new ≡ intervals.old) }
    ensures house { MatchResult result (λ _. house_says house.new ≡ with_pending (pos 0) (house_says house.old)) (λ _. house.new ≡ house.old) }
    ensures lines { MatchResult result (λ _. LinesWritten (statement_key statement) (interval_rows intervals.old) (basis_by (house_says house.old) rows.now) lines.old lines.new) (λ _. lines.new ≡ lines.old) }
    ensures book { MatchResult result (λ _. (i : IntervalSaid) → open_at (interval_rows intervals.old) (statement_key statement) ≡ Some i → Settled (B.held book.old) (B.room book.old) (nasc_of (basis_by (house_says house.old) rows.now i)) (B.held book.new) (B.room book.new)) (λ _. book.new ≡ book.old) }
    ensures turns { OnOk result ((i : IntervalSaid) → open_at (interval_rows intervals.old) (statement_key statement) ≡ Some i → InTurn B.held B.room B.takes (nasc_of (basis_by (house_says house.old) rows.now i)) accounts book.old book.new) }
    ensures conditions { (k : ℕ) → B.holds k book.old → B.holds k book.new }
    ensures statement { IfErr result (λ e. e.statement ≡ statement) }
{
    let count = lines.len();
    let planned = plan_final(house, intervals, rows, count, &statement, call);
    // no `?`: a refusal hands the statement back
    let plan = match planned {
        Ok(plan) => plan,
        Err(refusal) => return Err(Refused { refusal, statement }),
    };
    let amounts = credits(&plan.figures.lines);
    if let Err(refusal) = post_statement(book, &amounts) {
        return Err(Refused { refusal, statement });
    }
    write_lines(lines, &plan.figures.lines);
    plan.interval.write(intervals);
    *house = house.with_nothing_pending();
    let Statement {
        house: _,
        half_hour: _,
    } = statement;
    Ok(())
}
