// Tests of the ends of every range and of the gathering, in a crate of their own so that no other crate is proved again
// for them.
#![tactic(auto)]

#[cfg(test)]
mod gathered;
#[cfg(test)]
mod row_edges;

#[cfg(test)]
mod tests {
    use records::{Contract, Facility, Load, Terms, Vesting};
    use std::test::Fail;
    use units::Money;

    #[test]
    fn readings_end_at_their_ranges(rt: HostRuntime) {
        assert!(rt;
            Facility::new(96, 1_000_000, 10_000_000).is_ok()
                && Facility::new(1, -1_000_000, -10_000_000).is_ok()
        );
        assert!(rt; Facility::new(97, 0, 0).is_err() && Facility::new(0, 0, 0).is_err());
        assert!(rt;
            Facility::new(1, 1_000_001, 0).is_err() && Facility::new(1, 0, 10_000_001).is_err()
        );
        assert!(rt; Load::new(10_000_000, 10_000_000).is_ok() && Load::new(0, 0).is_ok());
        assert!(rt; Load::new(10_000_001, 0).is_err() && Load::new(0, -1).is_err());
    }

    #[test]
    fn contracts_end_at_their_ranges(rt: HostRuntime) {
        assert!(rt;
            Contract::new(1, 96, 10_000_000, 10_000, 10_000).is_ok()
                && Contract::new(96, 1, 0, 0, 0).is_ok()
        );
        assert!(rt;
            Contract::new(0, 1, 0, 0, 0).is_err() && Contract::new(1, 97, 0, 0, 0).is_err()
        );
        assert!(rt;
            Contract::new(1, 2, 0, 10_001, 0).is_err() && Contract::new(1, 2, 0, 0, 10_001).is_err()
        );
        assert!(rt;
            Vesting::new(1_000_000, 10_000_000).is_ok()
                && Vesting::new(-1_000_001, 0).is_err()
                && Vesting::new(0, 10_000_001).is_err()
        );
    }

    #[test]
    fn terms_end_at_their_ranges(rt: HostRuntime) -> Result<(), Fail> {
        assert!(rt;
            Terms::new(-1_000_000, 100_000, 96, 1).is_ok()
                && Terms::new(0, 100_001, 1, 2).is_err()
                && Terms::new(0, -1, 1, 2).is_err()
        );
        let Ok(terms) = Terms::new(0, 0, 4, 5) else {
            return Err(Fail::new("terms within their ranges"));
        };
        assert!(rt;
            terms.with_pending(Money(100_000_000_000_000_000)).is_ok()
                && terms.with_pending(Money(-100_000_000_000_000_001)).is_err()
        );
        Ok(())
    }
}
