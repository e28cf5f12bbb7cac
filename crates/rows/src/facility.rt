// Facility readings: whose the facility is, its price (MEP), and its injected energy (IEQ) with its corrections.
ghost use Rattle.std.specs.Prelude.{◌≡◌, ◌≤◌, ◌&&◌, pos, neg_ℤ, is_ok, None, MatchResult};
ghost use Rattle.units.specs.Ranges.{Account, Around, inside, account_range, facility_range, price_range, injection_range};
ghost use Rattle.units.specs.declared.refusal.Refusal.TheVariants.{OutOfRange};
ghost use Rattle.register.specs.Keys.{numbered_key};
ghost use Rattle.rows.specs.Values.{EachWithin, corrected};
ghost use Rattle.std.proofs.Common.{rules, arith};

use crate::correction::Correction;
use crate::metered::Metered;
use register::register::Row;
use units::range::{ACCOUNT, FACILITY, INJECTION, PRICE};
use units::{HalfHour, Price, Refusal};

#[derive(Clone, Copy, PartialEq, Eq)]
pub struct FacilityKey {
    pub half_hour: HalfHour,
    pub facility: u8,
}

#[derive(Clone, Copy)]
pub struct FacilityReading {
    pub key: FacilityKey,
    pub account: u16,
    pub mep: Price,
    pub ieq: Metered,
    ghost facility_ok: { (1 ≤ key.facility) × (key.facility ≤ 128) },
    ghost account_ok: { Account account },
    ghost mep_ok: { Around 1000000 mep.0 },
    ghost ieq_ok: { EachWithin (neg_ℤ (pos 10000000)) (pos 10000000) ieq },
}

impl FacilityReading {
    // A reading as it was first made.
    pub fn new(
        half_hour: HalfHour,
        facility: i64,
        account: i64,
        mep: i64,
        ieq: i64,
    ) -> Result<FacilityReading, Refusal>
        ensures made { MatchResult result (λ f. (f.key.half_hour ≡ half_hour) × (pos f.key.facility ≡ facility) × (pos f.account ≡ account) × (f.mep.0 ≡ mep) × (f.ieq ≡ record { base = ieq; first = None; second = None })) (λ e. e ≡ OutOfRange) }
        ensures accepts { is_ok result ≡ (inside facility_range facility && inside account_range account && inside price_range mep && inside injection_range ieq) }
    {
        let facility = FACILITY.take(facility)? as u8;
        let account = ACCOUNT.take(account)? as u16;
        let mep = Price(PRICE.take(mep)?);
        let ieq = INJECTION.take(ieq)?;
        Ok(FacilityReading {
            key: FacilityKey {
                half_hour,
                facility,
            },
            account,
            mep,
            ieq: Metered::new(ieq),
        })
    }

    // The same with a correction: the energy that the other reading has.
    pub fn with(mut self, correction: Correction, other: &FacilityReading) -> FacilityReading
        ensures kept { (result.key ≡ self.key) × (result.account ≡ self.account) × (result.mep ≡ self.mep) }
        ensures ieq { result.ieq ≡ corrected correction self.ieq other.now.ieq.base }
    {
        // a literal with `..self` is refused for a struct with ghost fields
        self.ieq = self.ieq.with(correction, other.ieq.base);
        self
    }
}

impl Row for FacilityReading {
    type Key = FacilityKey;

    ghost numbers = { λ k. numbered_key k.half_hour.day k.half_hour.interval k.facility };

    ghost carried = { λ r. numbered_key r.key.half_hour.day r.key.half_hour.interval r.key.facility };

    ghost tells = { first_of (Prim.search rules, Prim.grind (arith, Self.row.coded.inj)) };

    fn key(&self) -> FacilityKey {
        self.key
    }

    fn half_hour(&self) -> HalfHour {
        self.key.half_hour
    }
}
