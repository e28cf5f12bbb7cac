// The pending sum of a house: the total of adjustments that no final has settled yet.
ghost use Rattle.std.specs.Prelude.{◌≡◌, not, [], ◌∷◌, pos, ◌+ℤ◌, IfOk};
ghost use Rattle.units.specs.Checks.{first_met};
ghost use Rattle.units.specs.Ranges.{balance_range, inside};
ghost use Rattle.units.specs.Refusals.{answer_number};
ghost use Rattle.house.specs.Open.{check};
ghost use Rattle.house.specs.State.{house_says, with_pending};

use crate::state::House;
use units::{BALANCE, Money, Refusal};

// A struct with a ghost field takes no `..*self`: each of the two changes a copy.
impl House {
    // The same house with that much more pending, refused by 15 where the sum would pass its limit.
    pub fn with_more_pending(&self, more: Money) -> Result<House, Refusal>
        ensures answer { answer_number result ≡ first_met (check 15 (not (inside balance_range ((house_says self.now).pending +ℤ more.0))) ∷ []) }
        ensures house { IfOk result (λ h. house_says h ≡ with_pending ((house_says self.now).pending +ℤ more.0) (house_says self.now)) }
    {
        let sum = self.pending.plus_within(more, BALANCE);
        let mut house = *self;
        house.pending = sum.ok_or(Refusal::BalanceBeyondLimit)?;
        Ok(house)
    }

    // The same house with nothing pending.
    pub fn with_nothing_pending(&self) -> House
        ensures { house_says result ≡ with_pending (pos 0) (house_says self.now) }
    {
        let mut house = *self;
        house.pending = Money(0);
        house
    }
}
