// The units of a settlement and what every layer above shares: energy, prices and money, quotients in the three
// roundings, the ranges of the charter's numbers, stamps with their windows, half hours, and the refusals.
#![tactic(auto)]

pub mod division;
pub mod half_hour;
pub mod quantity;
pub mod range;
pub mod refusal;
pub mod stamp;
pub mod window;

pub use division::{div_floor, div_nearest, div_towards_zero};
pub use half_hour::HalfHour;
pub use quantity::{Energy, Money, Price};
pub use range::{ACCOUNTS, BALANCE, BALANCE_LIMIT, CONTRACTS, FACILITIES, Range};
pub use refusal::Refusal;
pub use stamp::Stamp;
pub use window::Window;

#[cfg(test)]
mod tests {
    use crate::range::Range;
    use crate::{Stamp, range};

    // A range holds both its ends, and nothing next to them.
    fn holds_its_ends(r: Range, low: i64, high: i64) -> bool {
        r.holds(low)
            && r.holds(high)
            && !r.holds(low.saturating_sub(1))
            && !r.holds(high.saturating_add(1))
    }

    #[test]
    fn ranges_end_where_the_charter_says(rt: HostRuntime) {
        assert!(rt; holds_its_ends(range::HOUSE, 0, 65_535));
        assert!(rt; holds_its_ends(range::DAY, 1, 40_000));
        assert!(rt; holds_its_ends(range::INTERVAL, 1, 48));
        assert!(rt; holds_its_ends(range::ACCOUNT, 1, 96));
        assert!(rt; holds_its_ends(range::FACILITY, 1, 128));
        assert!(rt; holds_its_ends(range::CONTRACT, 1, 64));
        assert!(rt; holds_its_ends(range::TRANCHE, 0, 2));
    }

    #[test]
    fn ranges_of_amounts_end_where_the_charter_says(rt: HostRuntime) {
        assert!(rt; holds_its_ends(range::PRICE, -1_000_000, 1_000_000));
        assert!(rt; holds_its_ends(range::RATE, 0, 100_000));
        assert!(rt; holds_its_ends(range::INJECTION, -10_000_000, 10_000_000));
        assert!(rt; holds_its_ends(range::QUANTITY, 0, 10_000_000));
        assert!(rt; holds_its_ends(range::FRACTION, 0, 10_000));
        assert!(rt; holds_its_ends(range::DAYS, 0, 1_000));
        assert!(rt; holds_its_ends(range::MINUTE, 0, 1_439));
        assert!(rt; holds_its_ends(range::UPLIFT, -100_000_000, 100_000_000));
    }

    // The window of a stamp, by its number; 0 where there is no such stamp.
    fn window_number(days: i64, minute: i64) -> u8 {
        Stamp::new(days, minute).map_or(0, |s| s.window().number())
    }

    #[test]
    fn windows_end_at_five(rt: HostRuntime) {
        assert!(rt; window_number(5, 1020) == 1 && window_number(5, 1021) == 2);
        assert!(rt; window_number(9, 1020) == 2 && window_number(9, 1021) == 3);
        assert!(rt; window_number(47, 1020) == 3 && window_number(47, 1021) == 4);
        assert!(rt; window_number(252, 1020) == 4 && window_number(252, 1021) == 5);
        assert!(rt;
            window_number(1000, 1439) == 5
                && window_number(1001, 0) == 0
                && window_number(0, 1440) == 0
        );
    }
}
