// One half hour's inputs, and the differences of its corrections, gathered from the registers in one pass over each.
#![tactic(auto)]

mod gather;
pub mod handed;
pub mod inputs;
pub mod moves;
mod places;

pub use handed::{Readings, Rows};
pub use inputs::inputs_of;
pub use moves::moves_of;
