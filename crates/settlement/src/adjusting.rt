// An adjustment of a half hour: first decided, with nothing changed, then posted and written.
ghost use Rattle.std.specs.Prelude.{◌≡◌, ℕ, IfOk, Some, MatchResult, OnOk, slice_set};
ghost use Rattle.units.specs.Checks.{first_met};
ghost use Rattle.units.specs.Ranges.{Account, accounts};
ghost use Rattle.units.specs.Refusals.{answer_number};
ghost use Rattle.book.specs.Statement.{InTurn, Settled, amount_of};
ghost use Rattle.formulas.specs.Sums.{sum};
ghost use Rattle.rows.specs.Meaning.{IntervalSaid, facility_rows, interval_rows, interval_says, load_rows};
ghost use Rattle.house.specs.Open.{open_at};
ghost use Rattle.house.specs.State.{house_says};
ghost use Rattle.statement.specs.Statements.{stamped_key};
ghost use Rattle.settlement.specs.Moves.{TwoAreOne};
ghost use Rattle.settlement.specs.Steps.{Planned, adjusted_house, adjusted_intervals, adjustment_checks, adjusts_by, planning_checks};

use crate::step::Step;
use adjustment::{Adjustments, adjustments};
use book::{Book, post_statement};
use calls::StampedCall;
use gather::{Readings, moves_of};
use house::House;
use house::open::{At, find_open};
use rows::{Correction, Interval};
use statement::stamped::{check_stamp, taken};
use units::{ACCOUNTS, Money, Refusal};

// What the correction adds to every account.
fn worked(
    correction: Correction,
    house: &House,
    interval: &Interval,
    readings: &Readings,
) -> Adjustments
    ensures amounts { (a : ℕ) → Account a → amount_of result.amounts a ≡ adjusts_by correction (house_says house.now) readings.now (interval_says interval.now) a }
    ensures total { result.total.0 ≡ sum accounts (adjusts_by correction (house_says house.now) readings.now (interval_says interval.now)) }
{
    let terms = house.terms(interval);
    let differences = moves_of(correction, interval, terms.operator, readings);
    adjustments(&differences)
}

// What an accepted adjustment posts and writes.
#[derive(Clone, Copy)]
struct Plan {
    house: House,
    interval: At<Interval>,
    amounts: [Money; ACCOUNTS],
}

fn plan_adjustment(
    correction: Correction,
    house: &House,
    intervals: &[Option<Interval>],
    readings: &Readings,
    call: &StampedCall,
) -> Result<Plan, Refusal>
    ensures answer { answer_number result ≡ first_met (planning_checks correction call.now (house_says house.now) (interval_rows intervals.now) (adjusts_by correction (house_says house.now) readings.now)) }
    ensures intervals { IfOk result (λ p. interval_rows (slice_set intervals.now p.interval.index (Some p.interval.row)) ≡ adjusted_intervals correction call.now (interval_rows intervals.now)) }
    ensures planned { IfOk result (λ p. Planned call.now (house_says house.now) (interval_rows intervals.now) (adjusts_by correction (house_says house.now) readings.now) (house_says p.house) (amount_of p.amounts)) }
{
    let taken = taken(call)?;
    let opened = find_open(intervals, taken.half_hour)?;
    let step = Step::by(correction);
    check_stamp(&opened.row, step.from, step.early, taken.stamp)?;
    let worked = worked(correction, house, &opened.row, readings);
    let house = house.with_more_pending(worked.total)?;
    let row = opened.row.moved(step.to, taken.stamp);
    let amounts = worked.amounts;
    Ok(Plan {
        house,
        interval: At {
            index: opened.index,
            row,
        },
        amounts,
    })
}

// Adjusts a half hour by its first or its second correction, over any book.
pub fn adjust<B: Book>(
    correction: Correction,
    house: &mut House,
    intervals: &mut [Option<Interval>],
    readings: &Readings,
    book: &mut B,
    call: &StampedCall,
) -> Result<(), Refusal>
    ensures answer { answer_number result ≡ first_met (adjustment_checks correction call.now (house_says house.old) (interval_rows intervals.old) (adjusts_by correction (house_says house.old) readings.now) (B.held book.old) (B.room book.old)) }
    ensures intervals { MatchResult result (λ _. interval_rows intervals.new ≡ adjusted_intervals correction call.now (interval_rows intervals.old)) (λ _. intervals.new ≡ intervals.old) }
    ensures house { MatchResult result (λ _. (i : IntervalSaid) → open_at (interval_rows intervals.old) (stamped_key call.now) ≡ Some i → house_says house.new ≡ adjusted_house (house_says house.old) (adjusts_by correction (house_says house.old) readings.now i)) (λ _. house.new ≡ house.old) }
    ensures book { MatchResult result (λ _. (i : IntervalSaid) → open_at (interval_rows intervals.old) (stamped_key call.now) ≡ Some i → Settled (B.held book.old) (B.room book.old) (adjusts_by correction (house_says house.old) readings.now i) (B.held book.new) (B.room book.new)) (λ _. book.new ≡ book.old) }
    ensures turns { OnOk result ((i : IntervalSaid) → open_at (interval_rows intervals.old) (stamped_key call.now) ≡ Some i → InTurn B.held B.room B.takes (adjusts_by correction (house_says house.old) readings.now i) accounts book.old book.new) }
    ensures conditions { (k : ℕ) → B.holds k book.old → B.holds k book.new }
    ensures joined { (i : IntervalSaid) → TwoAreOne (house_says house.old).operator i (facility_rows readings.now.facilities.now) (load_rows readings.now.loads.now) }
{
    let plan = plan_adjustment(correction, house, intervals, readings, call)?;
    post_statement(book, &plan.amounts)?;
    plan.interval.write(intervals);
    *house = plan.house;
    Ok(())
}
