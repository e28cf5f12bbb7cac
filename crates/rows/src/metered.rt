// A metered quantity in kWh, with its two corrections where they were made. A value that was never corrected is the one
// before it.
ghost use Rattle.std.specs.Prelude.{◌≡◌, None};
ghost use Rattle.rows.specs.Values.{after_value, base_value, before_value, corrected};

use crate::correction::Correction;
use units::Energy;

#[derive(Clone, Copy)]
pub struct Metered {
    pub base: i64,
    // two options and not one of both: the second correction can stand without the first
    pub first: Option<i64>,
    pub second: Option<i64>,
}

impl Metered {
    // A quantity that was not corrected.
    pub fn new(base: i64) -> Metered
        ensures { result ≡ record { base = base; first = None; second = None } }
    {
        Metered {
            base,
            first: None,
            second: None,
        }
    }

    // The value before any correction.
    pub fn base(&self) -> Energy
        ensures { result.0 ≡ base_value self.now }
    {
        Energy(self.base)
    }

    // The value before a correction.
    pub fn before(&self, correction: Correction) -> Energy
        ensures { result.0 ≡ before_value correction self.now }
    {
        match correction {
            Correction::First => self.base(),
            Correction::Second => self.after(Correction::First),
        }
    }

    // The value after a correction.
    pub fn after(&self, correction: Correction) -> Energy
        ensures { result.0 ≡ after_value correction self.now }
    {
        let first = self.first.unwrap_or(self.base);
        match correction {
            Correction::First => Energy(first),
            Correction::Second => Energy(self.second.unwrap_or(first)),
        }
    }

    // The same with that value as its correction.
    pub fn with(self, correction: Correction, value: i64) -> Metered
        ensures { result ≡ corrected correction self value }
    {
        match correction {
            Correction::First => Metered {
                first: Some(value),
                ..self
            },
            Correction::Second => Metered {
                second: Some(value),
                ..self
            },
        }
    }
}
