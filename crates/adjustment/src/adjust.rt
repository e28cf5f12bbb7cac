// The adjustment of every account by how far the readings of a half hour moved.
ghost use Rattle.std.specs.Prelude.{◌≡◌, suc, ◌<◌, ◌+ℤ◌, ◌-ℤ◌};
ghost use Rattle.units.specs.Ranges.{Around, accounts};
ghost use Rattle.figures.specs.Meaning.{AmountsAre};
ghost use Rattle.formulas.specs.Adjustment.{nmea_of, rate_of};
ghost use Rattle.records.specs.Moved.{moves_of};
ghost use Rattle.adjustment.specs.Moved.{Adjusted};

use crate::moved::Adjustments;
use crate::movements::Movements;
use figures::{Amounts, account_totals};
use records::{Differences, charged, withdrawn};
use std::array;
use units::{Money, Price};

// What is earned, less what is paid.
fn less(earned: Money, fees: Money, paid: Money, load_fees: Money) -> Money
    requires earned { Around 2560000000000000 earned.0 }
    requires fees { Around 2560000000000000 fees.0 }
    requires paid { Around 2560000000000000 paid.0 }
    requires load_fees { Around 2000000000000 load_fees.0 }
    ensures value { result.0 ≡ earned.0 -ℤ fees.0 -ℤ paid.0 -ℤ load_fees.0 }
    ensures bound { Around 10000000000000000 result.0 }
{
    earned - fees - paid - load_fees
}

impl<'a> Movements<'a> {
    // The moves with the totals of every account's facilities.
    fn of(differences: &'a Differences) -> Movements<'a>
        ensures { result.differences.now ≡ differences.now }
    {
        Movements {
            differences,
            injected: account_totals(&differences.facilities),
        }
    }

    // The fee rate of the account at place k: the operator pays none. The place is a plain index, as `from_fn` hands it out.
    fn rate(&self, k: usize) -> Price
        requires { k < accounts }
        ensures value { result.0 ≡ rate_of (moves_of self.now.differences.now) (suc k) }
        ensures bound { Around 100000 result.0 }
    {
        if k + 1 == self.differences.operator as usize {
            Price(0)
        } else {
            self.differences.rate
        }
    }

    // What a load pays for its moved energy: the pool price and the uplift rate.
    fn price(&self) -> Price
        ensures value { result.0 ≡ (moves_of self.now.differences.now).usep +ℤ (moves_of self.now.differences.now).uplift }
        ensures bound { Around 101000000 result.0 }
    {
        Price(self.differences.usep.0 + self.differences.uplift.0)
    }

    // The adjustment of the account at place k (NMEA).
    fn net(&self, k: usize) -> Money
        requires { k < accounts }
        ensures value { result.0 ≡ nmea_of (moves_of self.now.differences.now) (suc k) }
        ensures bound { Around 10000000000000000 result.0 }
    {
        let differences = self.differences;
        let load = &differences.loads[k];
        let moved = self.injected[k];
        let rate = self.rate(k);
        let price = self.price();
        let fees = moved.ieq.at(rate);
        let paid = withdrawn(load).at(price);
        let load_fees = charged(load).at(rate);
        less(moved.gesc, fees, paid, load_fees)
    }

    // The adjustment of every account.
    fn amounts(&self) -> Amounts
        ensures { AmountsAre result.by_account (nmea_of (moves_of self.now.differences.now)) }
    {
        Amounts {
            by_account: array::from_fn(|k| self.net(k)),
        }
    }
}

// What the corrected readings add to every account.
pub fn adjustments(differences: &Differences) -> Adjustments
    ensures { Adjusted (moves_of differences.now) result }
{
    let amounts = Movements::of(differences).amounts();
    Adjustments {
        amounts: amounts.by_account,
        total: amounts.total(),
    }
}
