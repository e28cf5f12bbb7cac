// Books: what every book shows, the books that a pool keeps, and the posting of a whole statement over any of them.
#![tactic(auto)]

mod balances;
pub mod cent_layer;
pub mod entry;
pub mod interface;
pub mod limits;
mod lines;
pub mod passbook;
pub mod statement;
pub mod table;

pub use cent_layer::CentLayer;
pub use entry::Entry;
pub use interface::Book;
pub use passbook::Passbook;
pub use statement::{check_statement, post_statement};
pub use table::TableBook;

#[cfg(test)]
mod tests;
