// The order of stamps, and the five windows that a stamp may fall in.
ghost use Rattle.std.specs.Prelude.{◌≡◌, ◌&&◌, pos, is_ok, MatchResult};
ghost use Rattle.units.specs.Ranges.{inside, days_range, minute_range};
ghost use Rattle.units.specs.Stamps.{by_five, earlier, window};
ghost use Rattle.units.specs.Windows.{window_number};
ghost use Rattle.units.specs.declared.refusal.Refusal.TheVariants.{OutOfRange};

use crate::range::{DAYS, MINUTE};
use crate::refusal::Refusal;
use crate::stamp::Stamp;

#[derive(Clone, Copy, PartialEq, Eq, PartialOrd, Ord, Debug)]
pub enum Window {
    First = 1,
    Second = 2,
    Third = 3,
    Fourth = 4,
    Fifth = 5,
}

impl Window {
    // The number of the case; each such enum has its own, since no generic function can cast one.
    pub fn number(self) -> u8
        ensures { result ≡ window_number self }
    {
        self as u8
    }
}

impl Stamp {
    pub fn new(days: i64, minute: i64) -> Result<Stamp, Refusal>
        ensures made { MatchResult result (λ s. (pos s.days ≡ days) × (pos s.minute ≡ minute)) (λ e. e ≡ OutOfRange) }
        ensures accepts { is_ok result ≡ (inside days_range days && inside minute_range minute) }
    {
        let days = DAYS.take(days)? as u16;
        let minute = MINUTE.take(minute)? as u16;
        Ok(Stamp { days, minute })
    }

    // Whether this stamp comes before the other.
    pub fn is_before(self, other: Stamp) -> bool
        ensures { result ≡ earlier self.days self.minute other.days other.minute }
    {
        self < other
    }

    pub fn window(self) -> Window
        ensures { window_number result ≡ window self.days self.minute }
    {
        if self.is_by_five(5) {
            Window::First
        } else if self.is_by_five(9) {
            Window::Second
        } else if self.is_by_five(47) {
            Window::Third
        } else if self.is_by_five(252) {
            Window::Fourth
        } else {
            Window::Fifth
        }
    }

    // Whether this stamp is no later than 17:00 of that business day.
    fn is_by_five(self, day: u16) -> bool
        ensures { result ≡ by_five self.days self.minute day }
    {
        (self.days, self.minute) <= (day, 1020)
    }
}
