// Adjustments: what the corrected readings of a half hour add to every account (NMEA), in one pass over what moved.
#![tactic(auto)]

mod adjust;
mod moved;
mod movements;

pub use adjust::adjustments;
pub use moved::Adjustments;
