// The energy of a load where there may be none.
ghost use Rattle.std.specs.Prelude.{◌≡◌, pos, neg_ℤ};
ghost use Rattle.std.specs.Option.{option_map};
ghost use Rattle.units.specs.Ranges.{Within};
ghost use Rattle.formulas.specs.Basis.{of_load};
ghost use Rattle.records.specs.Meaning.{withdrawal_of};

use crate::entries::LoadWithin;
use units::Energy;

// The withdrawn energy of a load, none where there is no load.
pub fn withdrawn<const BELOW: u64>(load: &Option<LoadWithin<BELOW>>) -> Energy
    ensures value { result.0 ≡ of_load (λ l. l.weq) (option_map withdrawal_of load.now) }
    ensures bound { Within (neg_ℤ (pos BELOW)) (pos 10000000) result.0 }
{
    match load {
        Some(l) => l.weq,
        None => Energy(0),
    }
}

// The energy on which a load pays fees, none where there is no load. It differs from the other in the field that it reads:
// a function of the field would be no plainer than the match.
pub fn charged<const BELOW: u64>(load: &Option<LoadWithin<BELOW>>) -> Energy
    ensures value { result.0 ≡ of_load (λ l. l.wfq) (option_map withdrawal_of load.now) }
    ensures bound { Within (neg_ℤ (pos BELOW)) (pos 10000000) result.0 }
{
    match load {
        Some(l) => l.wfq,
        None => Energy(0),
    }
}
