// What is handed in for one half hour: readings, contracts and vesting rows. No record can hold a number outside its
// range.
ghost use Rattle.std.specs.Prelude.{◌≡◌, ◌≤◌, ◌&&◌, pos, neg_ℤ, is_ok, MatchResult};
ghost use Rattle.units.specs.Ranges.{Account, Around, Within, inside, account_range, price_range, injection_range, quantity_range, fraction_range};
ghost use Rattle.units.specs.declared.refusal.Refusal.TheVariants.{OutOfRange};

use units::range::{ACCOUNT, FRACTION, INJECTION, PRICE, QUANTITY};
use units::{Energy, Price, Refusal};

// What was read of a facility, or how far it moved: whose it is, its price (MEP) and its injected energy (IEQ), which
// lies at most FAR from zero.
#[derive(Clone, Copy)]
pub struct FacilityWithin<const FAR: u64> {
    pub account: u16,
    pub mep: Price,
    pub ieq: Energy,
    ghost account_ok: { Account account },
    ghost mep_ok: { Around 1000000 mep.0 },
    ghost ieq_ok: { Around FAR ieq.0 },
    // a move from one end of what may be read to the other is the widest
    ghost far_ok: { FAR ≤ 20000000 },
}

// What was read of a facility.
pub type Facility = FacilityWithin<10_000_000>;

// How far a facility's injected energy moved by a correction.
pub type MovedFacility = FacilityWithin<20_000_000>;

impl FacilityWithin<10_000_000> {
    pub fn new(account: i64, mep: i64, ieq: i64) -> Result<Facility, Refusal>
        ensures made { MatchResult result (λ f. (pos f.account ≡ account) × (f.mep.0 ≡ mep) × (f.ieq.0 ≡ ieq)) (λ e. e ≡ OutOfRange) }
        ensures accepts { is_ok result ≡ (inside account_range account && inside price_range mep && inside injection_range ieq) }
    {
        let account = ACCOUNT.take(account)? as u16;
        let mep = Price(PRICE.take(mep)?);
        let ieq = Energy(INJECTION.take(ieq)?);
        Ok(Facility { account, mep, ieq })
    }
}

// What was read of a load, or how far it moved: its withdrawn energy (WEQ), and the energy on which it pays fees (WFQ),
// neither more than BELOW below zero.
#[derive(Clone, Copy)]
pub struct LoadWithin<const BELOW: u64> {
    pub weq: Energy,
    pub wfq: Energy,
    ghost weq_ok: { Within (neg_ℤ (pos BELOW)) (pos 10000000) weq.0 },
    ghost wfq_ok: { Within (neg_ℤ (pos BELOW)) (pos 10000000) wfq.0 },
}

// What was read of a load.
pub type Load = LoadWithin<0>;

// How far a load moved by a correction.
pub type MovedLoad = LoadWithin<10_000_000>;

impl LoadWithin<0> {
    pub fn new(weq: i64, wfq: i64) -> Result<Load, Refusal>
        ensures made { MatchResult result (λ l. (l.weq.0 ≡ weq) × (l.wfq.0 ≡ wfq)) (λ e. e ≡ OutOfRange) }
        ensures accepts { is_ok result ≡ (inside quantity_range weq && inside quantity_range wfq) }
    {
        let weq = Energy(QUANTITY.take(weq)?);
        let wfq = Energy(QUANTITY.take(wfq)?);
        Ok(Load { weq, wfq })
    }
}

// A bilateral contract: an amount (BAQ), and the fractions of the buyer's withdrawn (BWF) and of the seller's injected
// energy (BIF), in hundredths of a percent.
#[derive(Clone, Copy)]
pub struct Contract {
    pub seller: u16,
    pub buyer: u16,
    pub baq: Energy,
    pub bwf: u16,
    pub bif: u16,
    ghost seller_ok: { Account seller },
    ghost buyer_ok: { Account buyer },
    ghost baq_ok: { Within (pos 0) (pos 10000000) baq.0 },
    ghost bwf_ok: { bwf ≤ 10000 },
    ghost bif_ok: { bif ≤ 10000 },
}

impl Contract {
    pub fn new(seller: i64, buyer: i64, baq: i64, bwf: i64, bif: i64) -> Result<Contract, Refusal>
        ensures made { MatchResult result (λ c. (pos c.seller ≡ seller) × (pos c.buyer ≡ buyer) × (c.baq.0 ≡ baq) × (pos c.bwf ≡ bwf) × (pos c.bif ≡ bif)) (λ e. e ≡ OutOfRange) }
        ensures accepts { is_ok result ≡ (inside account_range seller && inside account_range buyer && inside quantity_range baq && inside fraction_range bwf && inside fraction_range bif) }
    {
        let seller = ACCOUNT.take(seller)? as u16;
        let buyer = ACCOUNT.take(buyer)? as u16;
        let baq = Energy(QUANTITY.take(baq)?);
        let bwf = FRACTION.take(bwf)? as u16;
        let bif = FRACTION.take(bif)? as u16;
        Ok(Contract {
            seller,
            buyer,
            baq,
            bwf,
            bif,
        })
    }
}

// One tranche of a vesting contract.
#[derive(Clone, Copy)]
pub struct Vesting {
    pub price: Price,
    pub quantity: Energy,
    ghost price_ok: { Around 1000000 price.0 },
    ghost quantity_ok: { Within (pos 0) (pos 10000000) quantity.0 },
}

impl Vesting {
    pub fn new(price: i64, quantity: i64) -> Result<Vesting, Refusal>
        ensures made { MatchResult result (λ v. (v.price.0 ≡ price) × (v.quantity.0 ≡ quantity)) (λ e. e ≡ OutOfRange) }
        ensures accepts { is_ok result ≡ (inside price_range price && inside quantity_range quantity) }
    {
        let price = Price(PRICE.take(price)?);
        let quantity = Energy(QUANTITY.take(quantity)?);
        Ok(Vesting { price, quantity })
    }
}
