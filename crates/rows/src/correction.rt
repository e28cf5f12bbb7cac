// The two corrections that a reading may have: the second is made to what the first left.

#[derive(Clone, Copy, PartialEq, Eq)]
pub enum Correction {
    First,
    Second,
}
