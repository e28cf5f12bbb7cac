// When something was handed in: business days after the trading day, and the minute of that day.
ghost use Rattle.std.specs.Prelude.{◌≤◌};

#[derive(Clone, Copy, PartialEq, Eq, PartialOrd, Ord, Debug)]
pub struct Stamp {
    pub days: u16,
    pub minute: u16,
    ghost days_ok: { days ≤ 1000 },
    ghost minute_ok: { minute ≤ 1439 },
}
