// The adjustments of all accounts.
use units::{ACCOUNTS, Money};

#[derive(Clone, Copy)]
pub struct Adjustments {
    // by rising account
    pub amounts: [Money; ACCOUNTS],
    // of all accounts together
    pub total: Money,
}
