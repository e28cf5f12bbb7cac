// The withdrawal of a preliminary statement.
ghost use Rattle.std.specs.Prelude.{◌≡◌, IfOk, Some, MatchResult, slice_set};
ghost use Rattle.units.specs.Checks.{first_met};
ghost use Rattle.units.specs.Refusals.{answer_number};
ghost use Rattle.register.specs.Rows.{placed};
ghost use Rattle.rows.specs.Meaning.{interval_named, interval_rows, interval_says};
ghost use Rattle.rows.specs.declared.interval.Interval.{Interval as OpenedInterval};
ghost use Rattle.house.specs.Open.{open_at};
ghost use Rattle.house.specs.State.{house_says, key_of};
ghost use Rattle.statement.specs.Statements.{withdrawal_checks, withdrawal_intervals};

use crate::token::Statement;
use house::House;
use house::open::{At, find_open};
use rows::{Interval, Phase};
use units::Refusal;

// The interval of a statement, or a refusal by 5 where the statement is not of this house or its interval not in the
// preliminary phase.
pub(crate) fn find_preliminary(
    house: &House,
    intervals: &[Option<Interval>],
    statement: &Statement,
) -> Result<At<Interval>, Refusal>
    ensures answer { answer_number result ≡ first_met (withdrawal_checks statement.now (house_says house.now).number (interval_rows intervals.now)) }
    ensures found { IfOk result (λ o. open_at (interval_rows intervals.now) (key_of statement.now.half_hour) ≡ Some (interval_says o.row)) }
    ensures writes { IfOk result (λ o. (i : OpenedInterval) → (interval_says i).key ≡ key_of statement.now.half_hour → interval_rows (slice_set intervals.now o.index (Some i)) ≡ placed interval_named (interval_rows intervals.now) (interval_says i)) }
{
    if statement.house != house.number() {
        return Err(Refusal::NotThisStatement);
    }
    let opened = find_open(intervals, statement.half_hour).map_err(|_| Refusal::NotThisStatement)?;
    if opened.row.phase != Phase::Preliminary {
        return Err(Refusal::NotThisStatement);
    }
    Ok(opened)
}

// The interval of a statement, to be read again.
fn plan_withdrawal(
    house: &House,
    intervals: &[Option<Interval>],
    statement: &Statement,
) -> Result<At<Interval>, Refusal>
    ensures answer { answer_number result ≡ first_met (withdrawal_checks statement.now (house_says house.now).number (interval_rows intervals.now)) }
    ensures intervals { IfOk result (λ w. interval_rows (slice_set intervals.now w.index (Some w.row)) ≡ withdrawal_intervals statement.now (interval_rows intervals.now)) }
{
    let opened = find_preliminary(house, intervals, statement)?;
    let row = opened.row.moved(Phase::Reading, opened.row.last);
    Ok(At {
        index: opened.index,
        row,
    })
}

// Withdraws a statement, which is spent whatever comes: its interval is read again, or it is refused by 5.
pub fn withdraw(
    house: &House,
    intervals: &mut [Option<Interval>],
    statement: Statement,
) -> Result<(), Refusal>
    ensures answer { answer_number result ≡ first_met (withdrawal_checks statement (house_says house.now).number (interval_rows intervals.old)) }
    ensures intervals { MatchResult result (λ _. interval_rows intervals.new ≡ withdrawal_intervals statement (interval_rows intervals.old)) (λ _. intervals.new ≡ intervals.old) }
{
    let plan = plan_withdrawal(house, intervals, &statement);
    let Statement {
        house: _,
        half_hour: _,
    } = statement;
    let again = plan?;
    again.write(intervals);
    Ok(())
}
