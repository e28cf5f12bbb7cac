// What one line of the input says: a call with its numbers, nothing, or no line of the format. A line of any bytes and
// any length has an answer.
#![tactic(auto)]

pub mod blanks;
pub mod call;
pub mod line;
mod table;
#[cfg(test)]
mod tests;
