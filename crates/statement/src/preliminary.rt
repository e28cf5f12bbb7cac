// The writing of a preliminary statement: first decided, with nothing changed, then written.
ghost use Rattle.std.specs.Prelude.{◌≡◌, ℕ, ◌<◌, ◌≤◌, [], ◌∷◌, length, drop, IfOk, Some, MatchResult, OnOk, nat_lt, slice_index_or, slice_set};
ghost use Rattle.units.specs.Checks.{first_met};
ghost use Rattle.units.specs.Ranges.{accounts};
ghost use Rattle.units.specs.Refusals.{answer_number};
ghost use Rattle.figures.specs.Settled.{FiguresAre};
ghost use Rattle.figures.specs.declared.line.Line.{Line as WrittenLine};
ghost use Rattle.formulas.specs.Figures.{settling_checks};
ghost use Rattle.rows.specs.Meaning.{IntervalSaid, interval_rows, interval_says};
ghost use Rattle.house.specs.Open.{check, open_at};
ghost use Rattle.house.specs.State.{house_says, key_of};
ghost use Rattle.statement.specs.Gathered.{basis_by};
ghost use Rattle.statement.specs.Statements.{LinesWritten, StatementOf, preliminary_checks, preliminary_intervals, stamped_key};

use crate::stamped::{check_stamp, taken};
use crate::token::Statement;
use calls::StampedCall;
use figures::{Figures, Line, settle};
use gather::{Rows, inputs_of};
use house::House;
use house::open::{At, find_open};
use rows::{Interval, Phase};
use units::{ACCOUNTS, HalfHour, Refusal, Window};

// Refused by 11 where there are fewer lines than accounts.
pub(crate) fn check_lines(count: usize) -> Result<(), Refusal>
    ensures { answer_number result ≡ first_met (check 11 (nat_lt count accounts) ∷ []) }
{
    if count < ACCOUNTS {
        return Err(Refusal::TooFewLines);
    }
    Ok(())
}

// The figures of an open interval.
pub(crate) fn figures_of(
    house: &House,
    interval: &Interval,
    rows: &Rows,
) -> Result<Figures, Refusal>
    ensures answer { answer_number result ≡ first_met (settling_checks (basis_by (house_says house.now) rows.now (interval_says interval.now))) }
    ensures figures { IfOk result (FiguresAre (basis_by (house_says house.now) rows.now (interval_says interval.now))) }
{
    let terms = house.terms(interval);
    let inputs = inputs_of(&terms, interval.half_hour, rows);
    settle(&inputs)
}

// Writes the lines of a statement over the first 96.
pub(crate) fn write_lines(lines: &mut [Line], written: &[Line; ACCOUNTS])
    requires { accounts ≤ length lines.old }
    ensures first { (k : ℕ) (d : WrittenLine) → k < accounts → slice_index_or lines.new k d ≡ slice_index_or written.now k d }
    ensures beyond { drop accounts lines.new ≡ drop accounts lines.old }
{
    lines[..ACCOUNTS].copy_from_slice(written);
}

// What an accepted preliminary statement writes.
#[derive(Clone, Copy)]
struct Plan {
    interval: At<Interval>,
    figures: Figures,
    half_hour: HalfHour,
}

// What an accepted preliminary statement writes. The house is read and the intervals will be written: they are handed over
// apart from the rows, as the owner of the registers hands them over at each call.
fn plan_preliminary(
    house: &House,
    intervals: &[Option<Interval>],
    rows: &Rows,
    count: usize,
    call: &StampedCall,
) -> Result<Plan, Refusal>
    ensures answer { answer_number result ≡ first_met (preliminary_checks call.now (interval_rows intervals.now) count (basis_by (house_says house.now) rows.now)) }
    ensures intervals { IfOk result (λ p. interval_rows (slice_set intervals.now p.interval.index (Some p.interval.row)) ≡ preliminary_intervals call.now (interval_rows intervals.now)) }
    ensures figures { IfOk result (λ p. (i : IntervalSaid) → open_at (interval_rows intervals.now) (stamped_key call.now) ≡ Some i → FiguresAre (basis_by (house_says house.now) rows.now i) p.figures) }
    ensures half_hour { IfOk result (λ p. key_of p.half_hour ≡ stamped_key call.now) }
    ensures lines { OnOk result (accounts ≤ count) }
{
    let taken = taken(call)?;
    let opened = find_open(intervals, taken.half_hour)?;
    check_stamp(&opened.row, Phase::Reading, Window::First, taken.stamp)?;
    check_lines(count)?;
    let figures = figures_of(house, &opened.row, rows)?;
    let row = opened.row.moved(Phase::Preliminary, taken.stamp);
    Ok(Plan {
        interval: At {
            index: opened.index,
            row,
        },
        figures,
        half_hour: taken.half_hour,
    })
}

// Writes the lines of a preliminary statement, moves its interval to the preliminary phase, and hands the statement out.
pub fn write_preliminary(
    house: &House,
    intervals: &mut [Option<Interval>],
    rows: &Rows,
    lines: &mut [Line],
    call: &StampedCall,
) -> Result<Statement, Refusal>
    ensures answer { answer_number result ≡ first_met (preliminary_checks call.now (interval_rows intervals.old) (length lines.old) (basis_by (house_says house.now) rows.now)) }
    ensures intervals { MatchResult result (λ _. interval_rows intervals.new ≡ preliminary_intervals call.now (interval_rows intervals.old)) (λ _. intervals.new ≡ intervals.old) }
    ensures lines { MatchResult result (λ _. LinesWritten (stamped_key call.now) (interval_rows intervals.old) (basis_by (house_says house.now) rows.now) lines.old lines.new) (λ _. lines.new ≡ lines.old) }
    ensures statement { IfOk result (StatementOf (house_says house.now).number call.now) }
{
    let count = lines.len();
    let plan = plan_preliminary(house, intervals, rows, count, call)?;
    write_lines(lines, &plan.figures.lines);
    plan.interval.write(intervals);
    Ok(Statement {
        house: house.number(),
        half_hour: plan.half_hour,
    })
}
