// The statements that the desk holds, in the order in which they were handed out.
ghost use Rattle.std.specs.Prelude.{ℕ, ◌<◌, length, MatchOption, slice_index_or};
ghost use Rattle.statement.specs.declared.token.Statement.{Statement as HeldStatement};
ghost use Rattle.house_desk.specs.Held.{OfHalfHour};

use statement::Statement;

// The place of the first statement of a half hour; none where no statement is of it.
pub(crate) fn place_held(statements: &[Statement], day: i64, interval: i64) -> Option<usize>
    ensures { MatchOption result ((k : ℕ) (d : HeldStatement) → k < length statements.now → OfHalfHour day interval (slice_index_or statements.now k d) → ⊥) (λ i. (i < length statements.now) × ((d : HeldStatement) → OfHalfHour day interval (slice_index_or statements.now i d)) × ((k : ℕ) (d : HeldStatement) → k < i → OfHalfHour day interval (slice_index_or statements.now k d) → ⊥)) }
{
    // a day and an interval of any size, as the call has them, so that no half hour is made of them
    statements.iter().position(|statement| {
        let half_hour = statement.half_hour();
        i64::from(half_hour.day) == day && i64::from(half_hour.interval) == interval
    })
}
