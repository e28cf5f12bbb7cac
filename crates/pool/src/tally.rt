// How many records of each kind a half hour has.
ghost use Rattle.std.specs.Prelude.{◌≡◌, ◌≤◌};
ghost use Rattle.pool.specs.Tallies.{held_places};

use records::{Inputs, Tranches};
use std::fmt;
use units::ACCOUNTS;

#[derive(Clone, Copy)]
pub struct Tally {
    pub facilities: usize,
    pub loads: usize,
    pub contracts: usize,
    pub vestings: usize,
}

// How many places of a list are taken.
fn taken<T>(places: &[Option<T>]) -> usize
    ensures { result ≡ held_places places.now }
{
    places.iter().filter(|place| place.is_some()).count()
}

// How many rows an account has.
fn rows(tranches: &Tranches) -> usize
    ensures { result ≤ 3 }
{
    taken(&[tranches.base, tranches.first, tranches.second])
}

// How many rows all accounts have.
fn all_rows(vestings: &[Tranches; ACCOUNTS]) -> usize {
    vestings.iter().map(rows).sum()
}

impl Tally {
    pub(crate) fn of(inputs: &Inputs) -> Tally {
        Tally {
            facilities: taken(&inputs.facilities),
            loads: taken(&inputs.loads),
            contracts: taken(&inputs.contracts),
            vestings: all_rows(&inputs.vestings),
        }
    }
}

impl fmt::Display for Tally {
    fn fmt<W: fmt::Write>(&self, f: &mut fmt::Formatter<W>) -> fmt::Result {
        write!(
            f,
            "taken,facilities,{},loads,{},contracts,{},vesting rows,{}",
            self.facilities, self.loads, self.contracts, self.vestings
        )
    }
}
