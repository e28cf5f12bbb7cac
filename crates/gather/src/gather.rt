// One half hour's rows by their place, gathered in one pass over a register. The first row of a key counts: a place that
// is filled is not filled again.
ghost use Rattle.std.specs.Prelude.{◌≡◌, ℕ, ◌<◌, true, length, if◌then◌else◌, Some, None, nat_eq, slice_index_or};
ghost use Rattle.std.specs.Option.{option_or};
ghost use Rattle.std.specs.Fn.{FnReturnsAt};
ghost use Rattle.register.specs.Keys.{Numbers, same_key};
ghost use Rattle.register.specs.Rows.{lookup};
ghost use Rattle.gather.specs.Viewed.{ViewOf};

use register::register::Row;
use units::HalfHour;

// A row that has a place among those of its half hour.
pub(crate) trait Placed: Row {
    // the key of each place, by day, interval and place
    ghost keyed: { ℕ → ℕ → ℕ → Numbers };

    fn place(&self) -> usize
        ensures { Self.Row.carried self.now ≡ keyed (Self.Row.carried self.now).day (Self.Row.carried self.now).interval result };

    ghost apart: { (d t i j : ℕ) → same_key (keyed d t i) (keyed d t j) ≡ true → i ≡ j };

    ghost dated: { (d t i : ℕ) → ((keyed d t i).day ≡ d) × ((keyed d t i).interval ≡ t) };
}

// Holds the value at its place, unless something is held there or there is no such place.
fn keep<T: Copy>(held: &mut [Option<T>], at: usize, value: T)
    ensures { (i : ℕ) → i < length held.old → slice_index_or held.new i None ≡ (if nat_eq i at then option_or (slice_index_or held.old i None) (Some value) else slice_index_or held.old i None) }
{
    if at < held.len() {
        let there = &held[at];
        if there.is_none() {
            held[at] = Some(value);
        }
    }
}

// What is seen of the half hour's rows, by their place.
pub(crate) fn gather<R: Placed, T: Copy, F: Fn(&R) -> T, const N: usize>(
    rows: &[Option<R>],
    half_hour: HalfHour,
    view: F,
) -> [Option<T>; N]
    requires { F.IsAlwaysCallable view }
    ensures { (i : ℕ) → i < N → ViewOf (FnReturnsAt F.Fn view) (lookup R.Row.carried rows.now (R.Placed.keyed half_hour.day half_hour.interval i)) (slice_index_or result i None) }
{
    let mut held = [None; N];
    for slot in rows {
        if let Some(row) = slot {
            if row.half_hour() == half_hour {
                keep(&mut held, row.place(), view(row));
            }
        }
    }
    held
}
