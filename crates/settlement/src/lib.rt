// Settlement over any book: the first and the second adjustment of a half hour.
#![tactic(auto)]

mod adjusting;
mod step;

pub use adjusting::adjust;
