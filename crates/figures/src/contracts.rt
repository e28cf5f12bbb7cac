// What every account has from bilateral contracts.
ghost use Rattle.std.specs.Prelude.{◌≡◌, ℕ, ◌≤◌, ℤ, pos, ◌+ℤ◌, if◌then◌else◌, nat_eq};
ghost use Rattle.std.specs.Option.{option_map};
ghost use Rattle.units.specs.Ranges.{Account, Around, Within};
ghost use Rattle.formulas.specs.Figures.{beq_of, bsc_of, from_contract, part};
ghost use Rattle.figures.specs.Meaning.{AmountsAre, amount_at, basis_of, bilateral_of};

use crate::injected::positive;
use crate::injections::Injections;
use records::{Contract, withdrawn};
use units::{ACCOUNTS, Energy, Money, div_floor};

// That many hundredths of a percent of a quantity, rounded down.
fn hundredths_of(hundredths: u16, quantity: Energy) -> Energy
    requires fraction { hundredths ≤ 10000 }
    requires quantity { Within (pos 0) (pos 10000000000) quantity.0 }
    ensures { result.0 ≡ part hundredths quantity.0 }
{
    match div_floor(hundredths as i128 * quantity.0 as i128, 10_000) {
        Some(whole) => Energy(whole as i64),
        None => Energy(0),
    }
}

// Three quantities together.
fn sum_of(x: Energy, y: Energy, z: Energy) -> Energy
    requires { (Around 1000000000000 x.0) × ((Around 1000000000000 y.0) × (Around 1000000000000 z.0)) }
    ensures { result.0 ≡ x.0 +ℤ y.0 +ℤ z.0 }
{
    Energy(x.0 + y.0 + z.0)
}

// The account's amount rises by that much.
fn credit(amounts: &mut [Money; ACCOUNTS], account: u16, by: Money)
    requires account { Account account }
    requires before { (a : ℕ) → Account a → Around 1000000000000000000 (amount_at amounts.old a) }
    requires by { Around 1000000000000000000 by.0 }
    ensures { (a : ℕ) → Account a → amount_at amounts.new a ≡ amount_at amounts.old a +ℤ (if nat_eq account a then by.0 else pos 0) }
{
    let at = account as usize - 1;
    amounts[at] = Money(amounts[at].0 + by.0);
}

impl Injections<'_> {
    // The energy that a contract moves (BEQ).
    fn contracted(&self, contract: &Contract) -> Energy
        ensures { result.0 ≡ beq_of (basis_of self.now.inputs.now) (bilateral_of contract.now) }
    {
        let inputs = self.inputs;
        let load = &inputs.loads[contract.buyer as usize - 1];
        let bought = hundredths_of(contract.bwf, withdrawn(load));
        let sold = hundredths_of(
            contract.bif,
            positive(self.injected[contract.seller as usize - 1].ieq),
        );
        sum_of(contract.baq, bought, sold)
    }

    // Adds what one contract, where there is one, moves between its parties: the buyer gains, and the seller loses.
    fn add_contract(&self, amounts: &mut [Money; ACCOUNTS], contract: &Option<Contract>)
        requires { (a : ℕ) → Account a → Around 100000000000000000 (amount_at amounts.old a) }
        ensures { (a : ℕ) → Account a → amount_at amounts.new a ≡ amount_at amounts.old a +ℤ from_contract (basis_of self.now.inputs.now) a (option_map bilateral_of contract.now) }
    {
        if let Some(c) = contract {
            let amount = self.contracted(c).at(self.inputs.terms.usep);
            credit(amounts, c.buyer, amount);
            credit(amounts, c.seller, Money(-amount.0));
        }
    }

    // What every account has from all contracts (BSC).
    pub(crate) fn contract_sums(&self) -> [Money; ACCOUNTS]
        ensures { AmountsAre result (bsc_of (basis_of self.now.inputs.now)) }
    {
        let mut amounts = [Money(0); ACCOUNTS];
        for contract in &self.inputs.contracts {
            self.add_contract(&mut amounts, contract);
        }
        amounts
    }
}
