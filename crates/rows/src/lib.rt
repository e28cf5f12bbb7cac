// The five kinds of row that the house keeps, in types that cannot hold a number outside its range: intervals, facility
// readings, load readings, bilateral contracts and vesting rows.
#![tactic(auto)]

pub mod contract;
pub mod correction;
pub mod facility;
pub mod interval;
pub mod load;
pub mod metered;
pub mod phase;
pub mod reading;
pub mod vesting;

pub use contract::{ContractKey, ContractRow};
pub use correction::Correction;
pub use facility::{FacilityKey, FacilityReading};
pub use interval::Interval;
pub use load::{LoadKey, LoadReading};
pub use metered::Metered;
pub use phase::Phase;
pub use vesting::{VestingKey, VestingRow};
