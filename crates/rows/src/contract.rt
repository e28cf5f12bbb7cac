// Bilateral contracts: an amount (BAQ), and the fractions of the buyer's withdrawn (BWF) and of the seller's injected
// energy (BIF), in hundredths of a percent.
ghost use Rattle.std.specs.Prelude.{◌≡◌, ◌≤◌, ◌&&◌, pos, is_ok, MatchResult};
ghost use Rattle.units.specs.Ranges.{Account, Within, inside, account_range, contract_range, quantity_range, fraction_range};
ghost use Rattle.units.specs.declared.refusal.Refusal.TheVariants.{OutOfRange};
ghost use Rattle.register.specs.Keys.{numbered_key};
ghost use Rattle.std.proofs.Common.{rules, arith};

use register::register::Row;
use units::range::{ACCOUNT, CONTRACT, FRACTION, QUANTITY};
use units::{Energy, HalfHour, Refusal};

#[derive(Clone, Copy, PartialEq, Eq)]
pub struct ContractKey {
    pub half_hour: HalfHour,
    pub contract: u8,
}

#[derive(Clone, Copy)]
pub struct ContractRow {
    pub key: ContractKey,
    pub seller: u16,
    pub buyer: u16,
    pub baq: Energy,
    pub bwf: u16,
    pub bif: u16,
    ghost contract_ok: { (1 ≤ key.contract) × (key.contract ≤ 64) },
    ghost seller_ok: { Account seller },
    ghost buyer_ok: { Account buyer },
    ghost baq_ok: { Within (pos 0) (pos 10000000) baq.0 },
    ghost bwf_ok: { bwf ≤ 10000 },
    ghost bif_ok: { bif ≤ 10000 },
}

impl ContractRow {
    pub fn new(
        half_hour: HalfHour,
        contract: i64,
        seller: i64,
        buyer: i64,
        baq: i64,
        bwf: i64,
        bif: i64,
    ) -> Result<ContractRow, Refusal>
        ensures made { MatchResult result (λ c. (c.key.half_hour ≡ half_hour) × (pos c.key.contract ≡ contract) × (pos c.seller ≡ seller) × (pos c.buyer ≡ buyer) × (c.baq.0 ≡ baq) × (pos c.bwf ≡ bwf) × (pos c.bif ≡ bif)) (λ e. e ≡ OutOfRange) }
        ensures accepts { is_ok result ≡ (inside contract_range contract && inside account_range seller && inside account_range buyer && inside quantity_range baq && inside fraction_range bwf && inside fraction_range bif) }
    {
        let contract = CONTRACT.take(contract)? as u8;
        let seller = ACCOUNT.take(seller)? as u16;
        let buyer = ACCOUNT.take(buyer)? as u16;
        let baq = Energy(QUANTITY.take(baq)?);
        let bwf = FRACTION.take(bwf)? as u16;
        let bif = FRACTION.take(bif)? as u16;
        Ok(ContractRow {
            key: ContractKey {
                half_hour,
                contract,
            },
            seller,
            buyer,
            baq,
            bwf,
            bif,
        })
    }
}

impl Row for ContractRow {
    type Key = ContractKey;

    ghost numbers = { λ k. numbered_key k.half_hour.day k.half_hour.interval k.contract };

    ghost carried = { λ r. numbered_key r.key.half_hour.day r.key.half_hour.interval r.key.contract };

    ghost tells = { first_of (Prim.search rules, Prim.grind (arith, Self.row.coded.inj)) };

    fn key(&self) -> ContractKey {
        self.key
    }

    fn half_hour(&self) -> HalfHour {
        self.key.half_hour
    }
}
