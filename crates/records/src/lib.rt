// What is handed in for one half hour, in types that cannot hold a number outside its range: readings, contracts and
// vesting rows, and the inputs that a half hour's figures are worked from.
#![tactic(auto)]

pub mod energy;
pub mod entries;
pub mod inputs;
pub mod moves;

pub use energy::{charged, withdrawn};
pub use entries::{
    Contract, Facility, FacilityWithin, Load, LoadWithin, MovedFacility, MovedLoad, Vesting,
};
pub use inputs::{Inputs, Terms, Tranches};
pub use moves::Differences;
