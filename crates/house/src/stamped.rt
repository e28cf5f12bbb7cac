// A row with the stamp at which it is handed in.
use units::Stamp;

#[derive(Clone, Copy)]
pub(crate) struct Stamped<R> {
    pub(crate) row: R,
    pub(crate) stamp: Stamp,
}
