// The settlement house: its opening, its intervals, and what is handed in for them.
#![tactic(auto)]

mod agreed;
mod facilities;
mod house;
mod loads;
pub mod open;
mod opening;
mod pending;
mod readings;
mod sorts;
mod stamped;
mod state;
mod taken;

pub use agreed::take_contract;
pub use facilities::read_facility;
pub use loads::read_load;
pub use opening::Opening;
pub use sorts::check_last;
pub use state::House;
