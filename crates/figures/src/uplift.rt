// The hourly energy uplift of a half hour: what there is to share out, over which load, and at which rate.
ghost use Rattle.std.specs.Prelude.{◌≡◌, pos, if◌then◌else◌, nat_eq};
ghost use Rattle.units.specs.Division.{floor};
ghost use Rattle.units.specs.Ranges.{Around, Within, accounts};
ghost use Rattle.formulas.specs.Figures.{gesc_of, heua_of, weq_of, borne, total_load, whole};
ghost use Rattle.figures.specs.Meaning.{basis_of};
ghost use Rattle.formulas.specs.Sums.{sum};
ghost use Rattle.figures.specs.Settled.{UpliftIs};

use crate::injections::Injections;
use crate::sums::Sums;
use records::withdrawn;
use units::{Energy, Money, Price, div_floor};

#[derive(Clone, Copy)]
pub struct Uplift {
    // what is to be shared out (HEUA)
    pub amount: Money,
    // all withdrawn energy, which bears it
    pub load: Energy,
    // the amount by kWh, rounded down (HEUR)
    pub rate: Price,
}

// An amount by kWh, rounded down; 0 where there is no load.
fn rate_of(amount: Money, load: Energy) -> Price
    requires amount { Around 1000000000000000000 amount.0 }
    requires load { Within (pos 0) (pos 1000000000000) load.0 }
    ensures { result.0 ≡ (if nat_eq (whole load.0) 0 then pos 0 else floor amount.0 (whole load.0)) }
{
    match div_floor(amount.0, load.0 as u64) {
        Some(rate) => Price(rate as i64),
        None => Price(0),
    }
}

impl Injections<'_> {
    // All withdrawn energy.
    fn total_withdrawn(&self) -> Energy
        ensures { result.0 ≡ sum accounts (weq_of (basis_of self.now.inputs.now)) }
    {
        let mut all = 0;
        for load in &self.inputs.loads {
            all += withdrawn(load).0;
        }
        Energy(all)
    }

    // What all accounts earned for their injected energy.
    fn total_earned(&self) -> Money
        ensures { result.0 ≡ sum accounts (gesc_of (basis_of self.now.inputs.now)) }
    {
        let mut all = 0;
        for account in &self.injected {
            all += account.gesc.0;
        }
        Money(all)
    }

    // The uplift of the half hour.
    pub(crate) fn uplift(&self) -> Uplift
        ensures { UpliftIs (basis_of self.now.inputs.now) result }
    {
        let load = self.total_withdrawn();
        let earned = self.total_earned();
        let paid = load.at(self.inputs.terms.usep);
        let amount = Money(earned.0 - paid.0 + self.inputs.terms.pending.0);
        let rate = rate_of(amount, load);
        Uplift { amount, load, rate }
    }
}

impl Sums<'_> {
    // What the loads of the accounts up to one bear of the uplift, rounded down; nothing where there is no load.
    pub(crate) fn borne_upto(&self, upto: Energy) -> Money
        requires { Within (pos 0) (pos (total_load (basis_of self.now.injections.inputs.now))) upto.0 }
        ensures { result.0 ≡ borne (heua_of (basis_of self.now.injections.inputs.now)) (total_load (basis_of self.now.injections.inputs.now)) upto.0 }
    {
        let uplift = &self.uplift;
        match div_floor(uplift.amount.0 * upto.0 as i128, uplift.load.0 as u64) {
            Some(amount) => Money(amount),
            None => Money(0),
        }
    }
}
