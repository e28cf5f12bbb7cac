// Rows by key, in lists that their owner hands over: one register for every kind of row.
#![tactic(auto)]

pub mod register;

pub use register::{Register, Row, Sought, seek};
