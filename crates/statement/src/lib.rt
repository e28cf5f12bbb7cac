// Preliminary statements: their writing, their withdrawal and their final, and what a participant is credited over a
// statement's lines.
#![tactic(auto)]

mod finalising;
mod participants;
mod preliminary;
pub mod stamped;
mod token;
mod withdrawal;

pub use finalising::finalise;
pub use participants::npsc;
pub use preliminary::write_preliminary;
pub use token::{Refused, Statement};
pub use withdrawal::withdraw;
