// Numbers as a clerk writes them, of any length, and the lines of a text.
#![tactic(auto)]

pub mod line;
#[cfg(test)]
mod tests;
pub mod text;
