// What the lines of one half hour are written from, by account.
ghost use Rattle.formulas.specs.Figures.{bsc_of, fee_of, vcsc_of};
ghost use Rattle.figures.specs.Meaning.{AmountsAre, basis_of};
ghost use Rattle.figures.specs.Settled.{UpliftIs};

use crate::injections::Injections;
use crate::uplift::Uplift;
use units::{ACCOUNTS, Money};

#[derive(Clone, Copy)]
pub(crate) struct Sums<'a> {
    pub(crate) injections: Injections<'a>,
    // by rising account; each list is balanced out whole before the first line is written, so they are no list of records
    pub(crate) contracts: [Money; ACCOUNTS],
    pub(crate) vesting: [Money; ACCOUNTS],
    pub(crate) fees: [Money; ACCOUNTS],
    pub(crate) uplift: Uplift,
    ghost contracts_ok: { AmountsAre contracts (bsc_of (basis_of injections.inputs.now)) },
    ghost vesting_ok: { AmountsAre vesting (vcsc_of (basis_of injections.inputs.now)) },
    ghost fees_ok: { AmountsAre fees (fee_of (basis_of injections.inputs.now)) },
    ghost uplift_ok: { UpliftIs (basis_of injections.inputs.now) uplift },
}
