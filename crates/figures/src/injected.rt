// What one account's facilities come to, totalled in one pass over all facilities.
ghost use Rattle.std.specs.Prelude.{◌≡◌, ℕ, suc, ◌<◌, Some, slice_index_or};
ghost use Rattle.std.specs.Option.{option_map};
ghost use Rattle.units.specs.Ranges.{accounts};
ghost use Rattle.formulas.specs.Figures.{at_least_0};
ghost use Rattle.figures.specs.Meaning.{injection_of, numbered};
ghost use Rattle.figures.specs.Working.{AllTotalled, Grown, Roomy, nothing_injected};

use crate::injections::Injections;
use records::{FacilityWithin, Inputs};
use units::{ACCOUNTS, Energy, FACILITIES, Money, Price};

// What one account's facilities come to: of what was read, or of how far it moved.
#[derive(Clone, Copy)]
pub struct Injected {
    // how many facilities
    pub count: u16,
    // their injected energy, and the same without those that drew energy
    pub ieq: Energy,
    pub injected: Energy,
    // their prices, for the plain average
    pub prices: Price,
    // injected energy at each facility's price, and the same without those that drew energy
    pub gesc: Money,
    pub weighted: Money,
}

impl Injected {
    // One facility more.
    fn with<const FAR: u64>(self, f: &FacilityWithin<FAR>) -> Injected
        requires { Roomy self }
        ensures { Grown f.now.account (Some (injection_of f.now)) self result }
    {
        let injected = positive(f.ieq);
        Injected {
            count: self.count + 1,
            ieq: Energy(self.ieq.0 + f.ieq.0),
            injected: Energy(self.injected.0 + injected.0),
            prices: Price(self.prices.0 + f.mep.0),
            gesc: Money(self.gesc.0 + f.ieq.at(f.mep).0),
            weighted: Money(self.weighted.0 + injected.at(f.mep).0),
        }
    }
}

// The energy, or none where it is negative.
pub(crate) fn positive(energy: Energy) -> Energy
    ensures { result.0 ≡ at_least_0 energy.0 }
{
    Energy(energy.0.max(0))
}

// Adds one facility, where there is one, to the totals of its account.
fn add_facility<const FAR: u64>(
    all: &mut [Injected; ACCOUNTS],
    facility: &Option<FacilityWithin<FAR>>,
)
    requires { (k : ℕ) → k < accounts → Roomy (slice_index_or all.old k nothing_injected) }
    ensures { (k : ℕ) → k < accounts → Grown (suc k) (option_map injection_of facility.now) (slice_index_or all.old k nothing_injected) (slice_index_or all.new k nothing_injected) }
{
    if let Some(f) = facility {
        let at = f.account as usize - 1;
        all[at] = all[at].with(f);
    }
}

// The totals of every account's facilities, by rising account.
pub fn account_totals<const FAR: u64>(
    facilities: &[Option<FacilityWithin<FAR>>; FACILITIES],
) -> [Injected; ACCOUNTS]
    ensures { AllTotalled (λ n. option_map injection_of (numbered facilities.now n)) result }
{
    let nothing = Injected {
        count: 0,
        ieq: Energy(0),
        injected: Energy(0),
        prices: Price(0),
        gesc: Money(0),
        weighted: Money(0),
    };
    let mut all = [nothing; ACCOUNTS];
    for facility in facilities {
        add_facility(&mut all, facility);
    }
    all
}

impl<'a> Injections<'a> {
    // The inputs with the totals of every account's facilities.
    pub(crate) fn of(inputs: &'a Inputs) -> Injections<'a>
        ensures { result.inputs.now ≡ inputs.now }
    {
        Injections {
            inputs,
            injected: account_totals(&inputs.facilities),
        }
    }
}
