// The fee that every account pays.
ghost use Rattle.std.specs.Prelude.{◌≡◌, suc, ◌<◌};
ghost use Rattle.units.specs.Ranges.{accounts};
ghost use Rattle.formulas.specs.Figures.{fee_of, own_fee_of};
ghost use Rattle.figures.specs.Meaning.{AmountsAre, basis_of};

use crate::injections::Injections;
use crate::totals::balance_out;
use records::charged;
use std::array;
use units::{ACCOUNTS, Energy, Money};

impl Injections<'_> {
    // The fee on the own energy of the account at place k. The place is a plain index, as `from_fn` hands it out: a type of
    // places would be made and opened at each call.
    fn own_fee(&self, k: usize) -> Money
        requires { k < accounts }
        ensures { result.0 ≡ own_fee_of (basis_of self.now.inputs.now) (suc k) }
    {
        let inputs = self.inputs;
        let load = &inputs.loads[k];
        let drawn = charged(load);
        Energy(self.injected[k].ieq.0 + drawn.0).at(inputs.terms.rate)
    }

    // The fee on every account's own energy.
    fn own_fees(&self) -> [Money; ACCOUNTS]
        ensures { AmountsAre result (own_fee_of (basis_of self.now.inputs.now)) }
    {
        array::from_fn(|k| self.own_fee(k))
    }

    // The fee that every account pays (FEE); the operator is paid all fees. Two lines, as the vesting sums are: with what is
    // worked and who takes the other side as parameters it would be no plainer.
    pub(crate) fn fee_sums(&self) -> [Money; ACCOUNTS]
        ensures { AmountsAre result (fee_of (basis_of self.now.inputs.now)) }
    {
        let mut amounts = self.own_fees();
        balance_out(&mut amounts, self.inputs.terms.operator);
        amounts
    }
}
