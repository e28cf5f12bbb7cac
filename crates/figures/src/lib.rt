// The figures of one half hour: `settle` works all of them in one pass over the inputs, and its contract equates each
// with its formula.
#![tactic(auto)]

mod contracts;
mod fees;
mod injected;
mod injections;
pub mod line;
mod sums;
mod totals;
pub mod uplift;
mod vesting;
pub mod worked;

pub use injected::{Injected, account_totals};
pub use line::Line;
pub use totals::Amounts;
pub use uplift::Uplift;
pub use worked::{Figures, settle};
