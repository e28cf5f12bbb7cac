// How far the readings of one half hour moved by a correction, by number, with the prices and the uplift rate that the
// moves are settled at.
ghost use Rattle.std.specs.Prelude.{pos};
ghost use Rattle.units.specs.Ranges.{Around, Within};

pub use crate::entries::{MovedFacility, MovedLoad};
use units::{ACCOUNTS, FACILITIES, Price};

#[derive(Clone, Copy)]
pub struct Differences {
    // the pool price (USEP)
    pub usep: Price,
    // the fee rate, of both administrative rates together
    pub rate: Price,
    // the uplift rate (HEUR) of the half hour's final
    pub uplift: Price,
    pub facilities: [Option<MovedFacility>; FACILITIES],
    pub loads: [Option<MovedLoad>; ACCOUNTS],
    // the account that the fees go to
    pub operator: u16,
    ghost usep_ok: { Around 1000000 usep.0 },
    ghost rate_ok: { Within (pos 0) (pos 100000) rate.0 },
    ghost uplift_ok: { Around 100000000 uplift.0 },
}
