// The place of each kind of row among those of its half hour.
ghost use Rattle.std.specs.Prelude.{suc, ◌/◌, ◌%◌};
ghost use Rattle.register.specs.Keys.{numbered_key, tranche_key};
ghost use Rattle.std.proofs.Common.{rules};

use crate::gather::Placed;
use rows::contract::ContractRow;
use rows::facility::FacilityReading;
use rows::load::LoadReading;
use rows::vesting::VestingRow;

impl Placed for FacilityReading {
    ghost keyed = { λ d t i. numbered_key d t (suc i) };

    ghost apart = { Prim.search rules };

    ghost dated = { Prim.search rules };

    fn place(&self) -> usize {
        self.key.facility as usize - 1
    }
}

impl Placed for LoadReading {
    ghost keyed = { λ d t i. numbered_key d t (suc i) };

    ghost apart = { Prim.search rules };

    ghost dated = { Prim.search rules };

    fn place(&self) -> usize {
        self.key.account as usize - 1
    }
}

impl Placed for ContractRow {
    ghost keyed = { λ d t i. numbered_key d t (suc i) };

    ghost apart = { Prim.search rules };

    ghost dated = { Prim.search rules };

    fn place(&self) -> usize {
        self.key.contract as usize - 1
    }
}

// The three tranches of an account follow one another.
impl Placed for VestingRow {
    ghost keyed = { λ d t i. tranche_key d t (suc (i / 3)) (i % 3) };

    ghost apart = { Prim.search rules };

    ghost dated = { Prim.search rules };

    fn place(&self) -> usize {
        3 * (self.key.account as usize - 1) + self.key.tranche as usize
    }
}
