// The figures of every account in one half hour, in one pass over its inputs.
ghost use Rattle.std.specs.Prelude.{◌≡◌, suc, ◌<◌, ◌||◌, ℤ, ◌+ℤ◌, ◌-ℤ◌, is_some, IfOk};
ghost use Rattle.units.specs.Checks.{first_met};
ghost use Rattle.units.specs.Ranges.{Around, accounts};
ghost use Rattle.units.specs.Refusals.{answer_number};
ghost use Rattle.formulas.specs.Cases.{ReferenceCases};
ghost use Rattle.formulas.specs.Figures.{heuc_of, settling_checks, unfounded};
ghost use Rattle.formulas.specs.Laws.{Conserved, UpliftShared};
ghost use Rattle.figures.specs.Meaning.{basis_of};
ghost use Rattle.formulas.specs.Sums.{some_of};
ghost use Rattle.figures.specs.Settled.{FiguresAre, LineIs, LinesAre};

use crate::injections::Injections;
use crate::line::Line;
use crate::sums::Sums;
use crate::uplift::Uplift;
use records::{Inputs, Tranches, withdrawn};
use units::range::UPLIFT;
use units::{ACCOUNTS, Energy, Money, Refusal};

// All figures of a half hour.
#[derive(Clone, Copy)]
pub struct Figures {
    pub uplift: Uplift,
    // by rising account
    pub lines: [Line; ACCOUNTS],
}

// The net of an account's figures.
fn net(gesc: Money, lesd: Money, bsc: Money, vcsc: Money, fee: Money, heuc: Money) -> Money
    requires gesc { Around 1000000000000000000 gesc.0 }
    requires lesd { Around 1000000000000000000 lesd.0 }
    requires bsc { Around 1000000000000000000 bsc.0 }
    requires vcsc { Around 1000000000000000000 vcsc.0 }
    requires fee { Around 1000000000000000000 fee.0 }
    requires heuc { Around 1000000000000000000 heuc.0 }
    ensures { result.0 ≡ gesc.0 -ℤ lesd.0 +ℤ bsc.0 +ℤ vcsc.0 -ℤ fee.0 -ℤ heuc.0 }
{
    gesc - lesd + bsc + vcsc - fee - heuc
}

// Whether there is a vesting row.
fn has_row(rows: &Tranches) -> bool
    ensures { result ≡ (is_some rows.now.base || is_some rows.now.first || is_some rows.now.second) }
{
    rows.base.is_some() || rows.first.is_some() || rows.second.is_some()
}

impl<'a> Sums<'a> {
    // What the lines of these inputs are written from.
    fn of(inputs: &'a Inputs) -> Sums<'a>
        ensures { result.injections.inputs.now ≡ inputs.now }
    {
        let injections = Injections::of(inputs);
        let contracts = injections.contract_sums();
        let vesting = injections.vesting_sums();
        let fees = injections.fee_sums();
        let uplift = injections.uplift();
        Sums {
            injections,
            contracts,
            vesting,
            fees,
            uplift,
        }
    }

    // The line of the account at place k, which is account k + 1, with its share of the uplift. The place is a plain index,
    // as `enumerate` hands it out.
    fn line(&self, k: usize, heuc: Money) -> Line
        requires place { k < accounts }
        requires share { heuc.0 ≡ heuc_of (basis_of self.now.injections.inputs.now) (suc k) }
        ensures { LineIs (basis_of self.now.injections.inputs.now) (suc k) result }
    {
        let inputs = self.injections.inputs;
        let load = &inputs.loads[k];
        let lesd = withdrawn(load).at(inputs.terms.usep);
        let gesc = self.injections.injected[k].gesc;
        let bsc = self.contracts[k];
        let vcsc = self.vesting[k];
        let fee = self.fees[k];
        let nasc = net(gesc, lesd, bsc, vcsc, fee, heuc);
        Line {
            account: k as u16 + 1,
            gesc,
            lesd,
            bsc,
            vcsc,
            fee,
            heuc,
            nasc,
        }
    }

    // Every account's line. A loop, and no array made place by place, since a share is what the loads up to an account
    // bear less what those before it bear.
    fn lines(&self) -> [Line; ACCOUNTS]
        ensures { LinesAre (basis_of self.now.injections.inputs.now) result }
    {
        let mut lines = [Line::blank(); ACCOUNTS];
        let mut upto = 0;
        let mut before = 0;
        for (k, load) in self.injections.inputs.loads.iter().enumerate() {
            upto += withdrawn(load).0;
            let bears = self.borne_upto(Energy(upto)).0;
            lines[k] = self.line(k, Money(bears - before));
            before = bears;
        }
        lines
    }

    // Whether the account at place k has a vesting row, and no facility.
    fn is_unfounded(&self, k: usize) -> bool
        requires { k < accounts }
        ensures { result ≡ unfounded (basis_of self.now.injections.inputs.now) (suc k) }
    {
        let inputs = self.injections.inputs;
        let rows = &inputs.vestings[k];
        has_row(rows) && self.injections.injected[k].count == 0
    }

    // Whether some account has a vesting row, and no facility.
    fn some_unfounded(&self) -> bool
        ensures { result ≡ some_of accounts (unfounded (basis_of self.now.injections.inputs.now)) }
    {
        (0..ACCOUNTS).any(|k| self.is_unfounded(k))
    }

    // What keeps the half hour from being settled, the first that is met.
    fn check(&self) -> Result<(), Refusal>
        ensures { answer_number result ≡ first_met (settling_checks (basis_of self.now.injections.inputs.now)) }
    {
        let uplift = &self.uplift;
        if self.some_unfounded() {
            Err(Refusal::VestingWithoutFacility)
        } else if uplift.load.0 == 0 && uplift.amount.0 != 0 {
            Err(Refusal::NoLoadForUplift)
        } else if !UPLIFT.holds(uplift.rate.0) {
            Err(Refusal::UpliftBeyondLimit)
        } else {
            Ok(())
        }
    }
}

// The figures of every account, or what keeps the half hour from being settled.
pub fn settle(inputs: &Inputs) -> Result<Figures, Refusal>
    ensures number { answer_number result ≡ first_met (settling_checks (basis_of inputs.now)) }
    ensures figures { IfOk result (FiguresAre (basis_of inputs.now)) }
    ensures uplift { UpliftShared (basis_of inputs.now) }
    ensures conserved { Conserved (basis_of inputs.now) }
    ensures cases { ReferenceCases }
{
    let sums = Sums::of(inputs);
    sums.check()?;
    Ok(Figures {
        uplift: sums.uplift,
        lines: sums.lines(),
    })
}
