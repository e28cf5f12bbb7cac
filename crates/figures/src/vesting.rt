// What every account has from vesting contracts.
ghost use Rattle.std.specs.Prelude.{◌≡◌, suc, ◌<◌, pos, ◌+ℤ◌};
ghost use Rattle.std.specs.Option.{option_map};
ghost use Rattle.units.specs.Division.{nearest};
ghost use Rattle.units.specs.Ranges.{Around, accounts};
ghost use Rattle.formulas.specs.Figures.{vcsc_of, from_vesting, own_vcsc_of};
ghost use Rattle.figures.specs.Meaning.{AmountsAre, basis_of, tranche, vested_of};
ghost use Rattle.figures.specs.Working.{Priced, price_from};

use crate::injected::Injected;
use crate::injections::Injections;
use crate::totals::balance_out;
use records::{Tranches, Vesting};
use std::array;
use units::{ACCOUNTS, Money, Price, div_nearest};

// A sum divided by its weight, to the nearest whole; 0 where there is no weight.
fn average(sum: i128, weight: u64) -> Price
    requires small { Around 1000000 (nearest sum weight) }
    requires nothing { weight ≡ 0 → sum ≡ pos 0 }
    ensures { result.0 ≡ nearest sum weight }
{
    match div_nearest(sum, weight) {
        Some(price) => Price(price as i64),
        None => Price(0),
    }
}

// The reference price of an account's vesting contracts (VCRP).
fn reference_price(x: &Injected) -> Price
    requires { Priced x.now }
    ensures { result.0 ≡ price_from x.now }
{
    if x.injected.0 == 0 {
        average(x.prices.0 as i128, x.count as u64)
    } else {
        average(x.weighted.0, x.injected.0 as u64)
    }
}

// What one tranche, where there is one, pays at that reference price.
fn from_tranche(reference: Price, row: &Option<Vesting>) -> Money
    requires { Around 1000000 reference.0 }
    ensures value { result.0 ≡ from_vesting reference.0 (option_map vested_of row.now) }
    ensures bound { Around 20000000000000 result.0 }
{
    match row {
        Some(v) => v.quantity.at(Price(v.price.0 - reference.0)),
        None => Money(0),
    }
}

// What an account's tranches pay together.
fn from_tranches(reference: Price, rows: &Tranches) -> Money
    requires { Around 1000000 reference.0 }
    ensures { result.0 ≡ from_vesting reference.0 (option_map vested_of (tranche rows.now 0)) +ℤ from_vesting reference.0 (option_map vested_of (tranche rows.now 1)) +ℤ from_vesting reference.0 (option_map vested_of (tranche rows.now 2)) }
{
    let base = from_tranche(reference, &rows.base);
    let first = from_tranche(reference, &rows.first);
    let second = from_tranche(reference, &rows.second);
    Money(base.0 + first.0 + second.0)
}

impl Injections<'_> {
    // What the own tranches of the account at place k pay. The place is a plain index, as `from_fn` hands it out.
    fn own_vesting(&self, k: usize) -> Money
        requires { k < accounts }
        ensures { result.0 ≡ own_vcsc_of (basis_of self.now.inputs.now) (suc k) }
    {
        let injected = self.injected[k];
        let reference = reference_price(&injected);
        let inputs = self.inputs;
        let rows = &inputs.vestings[k];
        from_tranches(reference, rows)
    }

    // What every account's own tranches pay.
    fn own_vestings(&self) -> [Money; ACCOUNTS]
        ensures { AmountsAre result (own_vcsc_of (basis_of self.now.inputs.now)) }
    {
        array::from_fn(|k| self.own_vesting(k))
    }

    // What every account has from vesting contracts (VCSC).
    pub(crate) fn vesting_sums(&self) -> [Money; ACCOUNTS]
        ensures { AmountsAre result (vcsc_of (basis_of self.now.inputs.now)) }
    {
        let mut amounts = self.own_vestings();
        balance_out(&mut amounts, self.inputs.terms.counterparty);
        amounts
    }
}
