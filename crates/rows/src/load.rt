// Load readings: an account's withdrawn energy (WEQ), and the energy on which it pays fees (WFQ), with their corrections.
ghost use Rattle.std.specs.Prelude.{◌≡◌, ◌&&◌, pos, is_ok, None, MatchResult};
ghost use Rattle.units.specs.Ranges.{Account, inside, account_range, quantity_range};
ghost use Rattle.units.specs.declared.refusal.Refusal.TheVariants.{OutOfRange};
ghost use Rattle.register.specs.Keys.{numbered_key};
ghost use Rattle.rows.specs.Values.{EachWithin, corrected};
ghost use Rattle.std.proofs.Common.{rules, arith};

use crate::correction::Correction;
use crate::metered::Metered;
use register::register::Row;
use units::range::{ACCOUNT, QUANTITY};
use units::{HalfHour, Refusal};

#[derive(Clone, Copy, PartialEq, Eq)]
pub struct LoadKey {
    pub half_hour: HalfHour,
    pub account: u16,
}

#[derive(Clone, Copy)]
pub struct LoadReading {
    pub key: LoadKey,
    pub weq: Metered,
    pub wfq: Metered,
    ghost account_ok: { Account key.account },
    ghost weq_ok: { EachWithin (pos 0) (pos 10000000) weq },
    ghost wfq_ok: { EachWithin (pos 0) (pos 10000000) wfq },
}

impl LoadReading {
    // A reading as it was first made.
    pub fn new(
        half_hour: HalfHour,
        account: i64,
        weq: i64,
        wfq: i64,
    ) -> Result<LoadReading, Refusal>
        ensures made { MatchResult result (λ l. (l.key.half_hour ≡ half_hour) × (pos l.key.account ≡ account) × (l.weq ≡ record { base = weq; first = None; second = None }) × (l.wfq ≡ record { base = wfq; first = None; second = None })) (λ e. e ≡ OutOfRange) }
        ensures accepts { is_ok result ≡ (inside account_range account && inside quantity_range weq && inside quantity_range wfq) }
    {
        let account = ACCOUNT.take(account)? as u16;
        let weq = QUANTITY.take(weq)?;
        let wfq = QUANTITY.take(wfq)?;
        Ok(LoadReading {
            key: LoadKey { half_hour, account },
            weq: Metered::new(weq),
            wfq: Metered::new(wfq),
        })
    }

    // The same with a correction: the quantities that the other reading has.
    pub fn with(mut self, correction: Correction, other: &LoadReading) -> LoadReading
        ensures kept { result.key ≡ self.key }
        ensures weq { result.weq ≡ corrected correction self.weq other.now.weq.base }
        ensures wfq { result.wfq ≡ corrected correction self.wfq other.now.wfq.base }
    {
        // a literal with `..self` is refused for a struct with ghost fields
        self.weq = self.weq.with(correction, other.weq.base);
        self.wfq = self.wfq.with(correction, other.wfq.base);
        self
    }
}

impl Row for LoadReading {
    type Key = LoadKey;

    ghost numbers = { λ k. numbered_key k.half_hour.day k.half_hour.interval k.account };

    ghost carried = { λ r. numbered_key r.key.half_hour.day r.key.half_hour.interval r.key.account };

    ghost tells = { first_of (Prim.search rules, Prim.grind (arith, Self.row.coded.inj)) };

    fn key(&self) -> LoadKey {
        self.key
    }

    fn half_hour(&self) -> HalfHour {
        self.key.half_hour
    }
}
