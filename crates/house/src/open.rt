// The open interval that a call speaks of, and rows with the place where each is to be written.
ghost use Rattle.std.specs.Prelude.{◌≡◌, not, [], ◌∷◌, is_some, IfOk, Some, MatchResult, slice_set};
ghost use Rattle.units.specs.Checks.{first_met};
ghost use Rattle.units.specs.Refusals.{answer_number};
ghost use Rattle.register.specs.Keys.{interval_key};
ghost use Rattle.register.specs.Rows.{place, placed};
ghost use Rattle.rows.specs.Meaning.{interval_named, interval_rows, interval_says};
ghost use Rattle.rows.specs.declared.interval.Interval.{Interval as OpenedInterval};
ghost use Rattle.house.specs.Open.{check, if_open, open_at};

use register::{Register, Row, seek};
use rows::Interval;
use units::{HalfHour, Refusal};

// A row, and where it is or is to be written.
#[derive(Clone, Copy)]
pub struct At<R> {
    pub index: usize,
    pub row: R,
}

impl<R: Row> At<R> {
    // Writes the row at its index; past the end nothing is written.
    pub fn write(&self, rows: &mut [Option<R>])
        ensures { rows.new ≡ slice_set rows.old self.now.index (Some self.now.row) }
    {
        let mut register = Register { rows };
        register.write(self.index, self.row);
    }
}

// Puts a row over its key's row, else into the first vacant row, refused by 10 where there is neither.
pub(crate) fn put_row<R: Row>(rows: &mut [Option<R>], row: R) -> Result<(), Refusal>
    ensures answer { answer_number result ≡ first_met (check 10 (not (is_some (place R.Row.carried rows.old (R.Row.carried row)))) ∷ []) }
    ensures rows { MatchResult result (λ _. rows.new ≡ placed R.Row.carried rows.old row) (λ _. rows.new ≡ rows.old) }
{
    let mut register = Register { rows };
    register.put(row)
}

// The open interval of a half hour, refused by 4 where it is not open.
pub fn find_open(
    intervals: &[Option<Interval>],
    half_hour: HalfHour,
) -> Result<At<Interval>, Refusal>
    ensures answer { answer_number result ≡ first_met (if_open (open_at (interval_rows intervals.now) (interval_key half_hour.day half_hour.interval)) (λ _. [])) }
    ensures found { IfOk result (λ o. open_at (interval_rows intervals.now) (interval_key half_hour.day half_hour.interval) ≡ Some (interval_says o.row)) }
    ensures writes { IfOk result (λ o. (i : OpenedInterval) → (interval_says i).key ≡ interval_key half_hour.day half_hour.interval → interval_rows (slice_set intervals.now o.index (Some i)) ≡ placed interval_named (interval_rows intervals.now) (interval_says i)) }
{
    let sought = seek(intervals, half_hour).ok_or(Refusal::NotOpen)?;
    let row = sought.row.ok_or(Refusal::NotOpen)?;
    Ok(At {
        index: sought.index,
        row,
    })
}
