// What a house holds.
ghost use Rattle.units.specs.Ranges.{Around};

use crate::opening::Opening;
use units::{HalfHour, Money};

#[derive(Clone, Copy)]
pub struct House {
    pub(crate) opening: Opening,
    // the latest opened interval
    pub(crate) latest: Option<HalfHour>,
    // the total of adjustments that no final has settled yet
    pub(crate) pending: Money,
    ghost pending_ok: { Around 100000000000000000 pending.0 },
}
