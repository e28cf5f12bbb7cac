// Readings of any kind: a base reading sets or replaces a row, a correction changes one that exists.
ghost use Rattle.std.specs.Prelude.{◌≡◌, not, ◌&&◌, [], ◌∷◌, map, IfOk, Some, MatchResult, slice_set};
ghost use Rattle.std.specs.Option.{option_map};
ghost use Rattle.units.specs.Checks.{first_met};
ghost use Rattle.units.specs.Refusals.{answer_number};
ghost use Rattle.register.specs.Rows.{lookup};
ghost use Rattle.rows.specs.Meaning.{interval_rows};
ghost use Rattle.house.specs.Open.{check, put_row};
ghost use Rattle.house.specs.Readings.{Kind, corrects, handed, intervals_after, left, may_correct, reading_checks, row_checks, rows_after};

use crate::open::{At, find_open};
use crate::sorts::sort_at;
use crate::stamped::Stamped;
use register::{Row, seek};
use rows::{Correction, Interval};
use units::Refusal;

// A row that is read, and may be corrected by a later reading of it.
pub(crate) trait Reading: Row {
    ghost Said: { Type 0 };

    // what the row says
    ghost says: { Self → Said };

    // which rows it may correct, and how
    ghost kind: { Kind Said };

    // Whether this reading may correct that row.
    fn may_correct(&self, old: &Self) -> bool
        ensures { result ≡ kind.may_correct (says self.now) (says old.now) };

    // The row with a correction by that reading.
    fn corrected(self, correction: Correction, reading: &Self) -> Self
        ensures { says result ≡ kind.corrected correction (says reading.now) (says self) };

    ghost keyed: { (r : Self) → kind.key (says r) ≡ Self.Row.carried r };

    ghost keeps: { (c : _) (new old : Said) → kind.key (kind.corrected c new old) ≡ kind.key old };
}

// The row that a correction by the reading changes, refused by 9 where there is none that it may correct.
fn to_correct<R: Reading>(old: Option<R>, reading: &R) -> Result<R, Refusal>
    ensures answer { answer_number result ≡ first_met (check 9 (not (may_correct R.Reading.kind (R.Reading.says reading.now) (option_map R.Reading.says old))) ∷ []) }
    ensures row { IfOk result (λ f. old ≡ Some f) }
{
    old.filter(|row| reading.may_correct(row))
        .ok_or(Refusal::NothingToCorrect)
}

// The row that a reading of that sort leaves.
fn left<R: Reading>(old: Option<R>, sort: Option<Correction>, reading: &R) -> Result<R, Refusal>
    ensures answer { answer_number result ≡ first_met (check 9 (corrects (Some sort) && not (may_correct R.Reading.kind (R.Reading.says reading.now) (option_map R.Reading.says old))) ∷ []) }
    ensures row { IfOk result (λ f. left R.Reading.kind (R.Reading.says reading.now) (Some sort) (option_map R.Reading.says old) ≡ Some (R.Reading.says f)) }
{
    // a base reading is no correction
    let Some(correction) = sort else {
        return Ok(*reading);
    };
    let row = to_correct(old, reading)?;
    Ok(row.corrected(correction, reading))
}

// That row, and where it is to be written, refused by 10 where there is no place for it.
fn row_at<R: Reading>(
    rows: &[Option<R>],
    sort: Option<Correction>,
    reading: &R,
) -> Result<At<R>, Refusal>
    ensures answer { answer_number result ≡ first_met (row_checks R.Reading.kind (R.Reading.says reading.now) (Some sort) (map (option_map R.Reading.says) rows.now)) }
    ensures row { IfOk result (λ w. map (option_map R.Reading.says) (slice_set rows.now w.index (Some w.row)) ≡ put_row R.Reading.kind.key (map (option_map R.Reading.says) rows.now) (left R.Reading.kind (R.Reading.says reading.now) (Some sort) (lookup R.Reading.kind.key (map (option_map R.Reading.says) rows.now) (R.Reading.kind.key (R.Reading.says reading.now))))) }
{
    let sought = seek(rows, reading.key());
    let row = left(sought.and_then(|place| place.row), sort, reading)?;
    let place = sought.ok_or(Refusal::RegisterFull)?;
    Ok(At {
        index: place.index,
        row,
    })
}

// What an accepted reading writes.
#[derive(Clone, Copy)]
struct Plan<R> {
    interval: At<Interval>,
    read: At<R>,
}

fn plan_reading<R: Reading>(
    intervals: &[Option<Interval>],
    rows: &[Option<R>],
    taken: &Stamped<R>,
) -> Result<Plan<R>, Refusal>
    ensures answer { answer_number result ≡ first_met (reading_checks R.Reading.kind (handed R.Reading.says taken.now) (interval_rows intervals.now) (map (option_map R.Reading.says) rows.now)) }
    ensures intervals { IfOk result (λ p. interval_rows (slice_set intervals.now p.interval.index (Some p.interval.row)) ≡ intervals_after R.Reading.kind (handed R.Reading.says taken.now) (interval_rows intervals.now)) }
    ensures rows { IfOk result (λ p. map (option_map R.Reading.says) (slice_set rows.now p.read.index (Some p.read.row)) ≡ rows_after R.Reading.kind (handed R.Reading.says taken.now) (interval_rows intervals.now) (map (option_map R.Reading.says) rows.now)) }
{
    let opened = find_open(intervals, taken.row.half_hour())?;
    let sort = sort_at(&opened.row, taken.stamp)?;
    let read = row_at(rows, sort, &taken.row)?;
    let row = opened.row.moved(opened.row.phase, taken.stamp);
    Ok(Plan {
        interval: At {
            index: opened.index,
            row,
        },
        read,
    })
}

// Takes a reading whose numbers lie in their ranges.
pub(crate) fn read<R: Reading>(
    intervals: &mut [Option<Interval>],
    rows: &mut [Option<R>],
    taken: &Stamped<R>,
) -> Result<(), Refusal>
    ensures answer { answer_number result ≡ first_met (reading_checks R.Reading.kind (handed R.Reading.says taken.now) (interval_rows intervals.old) (map (option_map R.Reading.says) rows.old)) }
    ensures intervals { MatchResult result (λ _. interval_rows intervals.new ≡ intervals_after R.Reading.kind (handed R.Reading.says taken.now) (interval_rows intervals.old)) (λ _. intervals.new ≡ intervals.old) }
    ensures rows { MatchResult result (λ _. map (option_map R.Reading.says) rows.new ≡ rows_after R.Reading.kind (handed R.Reading.says taken.now) (interval_rows intervals.old) (map (option_map R.Reading.says) rows.old)) (λ _. rows.new ≡ rows.old) }
{
    let plan = plan_reading(intervals, rows, taken)?;
    plan.interval.write(intervals);
    plan.read.write(rows);
    Ok(())
}
