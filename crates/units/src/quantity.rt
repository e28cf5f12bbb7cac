// Energy in kWh, prices and rates in cents per MWh, and money in millicents. A quantity, a price and a sum of money
// never stand in for one another: the one way from the first two to the third is `Energy::at`.
ghost use Rattle.std.specs.Prelude.{◌≡◌, ◌+ℤ◌, ◌-ℤ◌, ◌*ℤ◌, false, true, FitsSigned, Some, MatchOption};
ghost use Rattle.std.specs.Fmt.{signed_decimal};
ghost use Rattle.std.specs.Int.{w128};
ghost use Rattle.units.specs.Ranges.{balance_range, inside};

use crate::range::{BALANCE, Range};
use std::fmt;
use std::ops::{Add, Sub};

#[derive(Clone, Copy, PartialEq, Eq, Debug)]
pub struct Energy(pub i64);

#[derive(Clone, Copy, PartialEq, Eq, Debug)]
pub struct Price(pub i64);

#[derive(Clone, Copy, PartialEq, Eq, Debug)]
pub struct Money(pub i128);

impl Energy {
    // What this much energy costs at that price: kWh times cents per MWh is millicents, with no rounding.
    pub fn at(self, price: Price) -> Money
        ensures { result.0 ≡ price.0 *ℤ self.0 }
    {
        Money(price.0 as i128 * self.0 as i128)
    }
}

impl Money {
    // Whether this much lies in a range, both ends included.
    pub fn is_within(self, range: Range) -> bool
        ensures { result ≡ inside range self.0 }
    {
        range.holds_wide(self.0)
    }

    // Whether a balance or the pending sum may be this much.
    pub fn is_within_limit(self) -> bool
        ensures { result ≡ inside balance_range self.0 }
    {
        self.is_within(BALANCE)
    }

    // This much and more, where the sum lies in a range; nothing where it lies outside it.
    pub fn plus_within(self, more: Money, range: Range) -> Option<Money>
        ensures { MatchOption result (inside range (self.0 +ℤ more.0) ≡ false) (λ m. (m.0 ≡ self.0 +ℤ more.0) × (inside range (self.0 +ℤ more.0) ≡ true)) }
    {
        let sum = Money(self.0.checked_add(more.0)?);
        sum.is_within(range).then_some(sum)
    }
}

// Sums of money may be added and subtracted where the result fits.
impl Add<Money> for Money {
    type Output = Money;

    ghost can_add = { λ a b. FitsSigned w128 (a.0 +ℤ b.0) };

    ghost add_gives = { λ a b r. r.0 ≡ a.0 +ℤ b.0 };

    fn add(self, rhs: Money) -> Money {
        Money(self.0 + rhs.0)
    }
}

impl Sub<Money> for Money {
    type Output = Money;

    ghost can_sub = { λ a b. FitsSigned w128 (a.0 -ℤ b.0) };

    ghost sub_gives = { λ a b r. r.0 ≡ a.0 -ℤ b.0 };

    fn sub(self, rhs: Money) -> Money {
        Money(self.0 - rhs.0)
    }
}

// Money is written as its millicents.
impl fmt::Display for Money {
    ghost output = { λ m. Some (signed_decimal m.0) };

    fn fmt<W: fmt::Write>(&self, f: &mut fmt::Formatter<W>) -> fmt::Result {
        self.0.fmt(f)
    }
}
