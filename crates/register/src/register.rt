// The register: a list of rows handed over by its owner. A row is vacant (None) or carries a key; a key's row is the
// first that carries it.
ghost use Rattle.std.specs.Prelude.{◌≡◌, ◌<◌, Bool, map, length, is_some, IfSome, is_ok, if◌then◌else◌, Some, None, MatchResult, slice_set};
ghost use Rattle.std.specs.Option.{option_flatten, option_map};
ghost use Rattle.units.specs.declared.refusal.Refusal.TheVariants.{RegisterFull};
ghost use Rattle.register.specs.Keys.{Numbers, of_half_hour, same_key};
ghost use Rattle.register.specs.Rows.{is_at, lookup, place, placed, vacated};

use units::{HalfHour, Refusal};

// A row that carries a key. What tells keys apart are their numbers.
pub trait Row: Copy {
    type Key: Copy + Eq;

    ghost numbers: { Self.Key → Numbers };

    ghost carried: { Self → Numbers };

    fn key(&self) -> Self::Key
        ensures { numbers result ≡ carried self.now };

    fn half_hour(&self) -> HalfHour
        ensures { (result.day ≡ (carried self.now).day) × (result.interval ≡ (carried self.now).interval) };

    ghost tells: { (a b : Self.Key) (r : Bool) → (r ≡ Self.Key.PartialEq.eq a b) → r ≡ same_key (numbers a) (numbers b) };
}

#[derive(Drop)]
pub struct Register<'a, R> {
    pub rows: &'a mut [Option<R>],
}

// What is at a key's place: the key's row with its index, or no row where one of that key would be put.
#[derive(Clone, Copy)]
pub struct Sought<R> {
    pub index: usize,
    pub row: Option<R>,
}

impl<'a, R: Row> Register<'a, R> {
    // The key's row.
    pub fn find(&self, key: R::Key) -> Option<R>
        ensures { result ≡ lookup R.Row.carried self.now.rows.now (R.Row.numbers key) }
    {
        self.rows
            .iter()
            .find(|slot| is_at(slot, key))
            .copied()
            .flatten()
    }

    // Whether a row of that key could be put.
    pub fn has_place(&self, key: R::Key) -> bool
        ensures { result ≡ is_some (place R.Row.carried self.now.rows.now (R.Row.numbers key)) }
    {
        place_in(self.rows, key).is_some()
    }

    // Writes a row at an index; past the end nothing is written. That the list stays the owner's (`lender`) is a fact of a
    // change, so it is no invariant.
    pub fn write(&mut self, index: usize, row: R)
        ensures rows { self.new.rows.now ≡ slice_set self.old.rows.now index (Some row) }
        ensures lender { self.new.rows.ghost_name ≡ self.old.rows.ghost_name }
    {
        // `get_mut` left the goals `returns-in-Some-clause-rows` and `returns-in_default-clause-rows` open
        if index < self.rows.len() {
            self.rows[index] = Some(row);
        }
    }

    // Puts the row over its key's row, else into the first vacant row.
    pub fn put(&mut self, row: R) -> Result<(), Refusal>
        ensures rows { self.new.rows.now ≡ placed R.Row.carried self.old.rows.now row }
        ensures accepts { is_ok result ≡ is_some (place R.Row.carried self.old.rows.now (R.Row.carried row)) }
        ensures keys { MatchResult result (λ _. (q : Numbers) → lookup R.Row.carried self.new.rows.now q ≡ (if same_key (R.Row.carried row) q then Some row else lookup R.Row.carried self.old.rows.now q)) (λ e. (e ≡ RegisterFull) × (self.new.rows.now ≡ self.old.rows.now)) }
        ensures lender { self.new.rows.ghost_name ≡ self.old.rows.ghost_name }
    {
        // the borrow checker does not cover the call on `self.rows` itself
        let rows = &mut *self.rows;
        let Some(index) = place_in(rows, row.key()) else {
            return Err(Refusal::RegisterFull);
        };
        rows[index] = Some(row);
        Ok(())
    }

    // Every row of that half hour becomes vacant.
    pub fn vacate(&mut self, half_hour: HalfHour)
        ensures rows { self.new.rows.now ≡ map (vacated R.Row.carried half_hour.day half_hour.interval) self.old.rows.now }
        ensures keys { (q : Numbers) → lookup R.Row.carried self.new.rows.now q ≡ (if of_half_hour half_hour.day half_hour.interval q then None else lookup R.Row.carried self.old.rows.now q) }
        ensures lender { self.new.rows.ghost_name ≡ self.old.rows.ghost_name }
    {
        for slot in self.rows.iter_mut() {
            if let Some(row) = slot {
                if row.half_hour() == half_hour {
                    *slot = None;
                }
            }
        }
    }
}

// Whether the row carries the key; a vacant row carries none.
fn is_at<R: Row>(slot: &Option<R>, key: R::Key) -> bool
    ensures { result ≡ is_at R.Row.carried (R.Row.numbers key) slot.now }
{
    slot.is_some_and(|row| row.key() == key)
}

// The index of the key's row, else of the first vacant row, in one pass.
fn place_in<R: Row>(rows: &[Option<R>], key: R::Key) -> Option<usize>
    ensures value { result ≡ place R.Row.carried rows.now (R.Row.numbers key) }
    ensures within { IfSome result (λ i. i < length rows.now) }
{
    // one pass is a rule of the project, and two calls of `position` would be two passes
    let mut vacant = None;
    for (i, slot) in rows.iter().enumerate() {
        if is_at(slot, key) {
            return Some(i);
        }
        if slot.is_none() {
            vacant = vacant.or(Some(i));
        }
    }
    vacant
}

// What is at the key's place, in one pass; none where the key has no row and no row is vacant.
pub fn seek<R: Row>(rows: &[Option<R>], key: R::Key) -> Option<Sought<R>>
    ensures place { option_map (λ s. s.index) result ≡ place R.Row.carried rows.now (R.Row.numbers key) }
    ensures row { option_flatten (option_map (λ s. s.row) result) ≡ lookup R.Row.carried rows.now (R.Row.numbers key) }
{
    let index = place_in(rows, key)?;
    Some(Sought {
        index,
        row: rows[index],
    })
}
