// Vesting rows: one tranche of an account's vesting contract.
ghost use Rattle.std.specs.Prelude.{◌≡◌, ◌≤◌, ◌&&◌, pos, is_ok, MatchResult};
ghost use Rattle.units.specs.Ranges.{Account, Around, Within, inside, account_range, tranche_range, price_range, quantity_range};
ghost use Rattle.units.specs.declared.refusal.Refusal.TheVariants.{OutOfRange};
ghost use Rattle.register.specs.Keys.{tranche_key};
ghost use Rattle.std.proofs.Common.{rules, arith};

use register::register::Row;
use units::range::{ACCOUNT, PRICE, QUANTITY, TRANCHE};
use units::{Energy, HalfHour, Price, Refusal};

#[derive(Clone, Copy, PartialEq, Eq)]
pub struct VestingKey {
    pub half_hour: HalfHour,
    pub account: u16,
    pub tranche: u8,
}

#[derive(Clone, Copy)]
pub struct VestingRow {
    pub key: VestingKey,
    pub price: Price,
    pub quantity: Energy,
    ghost account_ok: { Account key.account },
    ghost tranche_ok: { key.tranche ≤ 2 },
    ghost price_ok: { Around 1000000 price.0 },
    ghost quantity_ok: { Within (pos 0) (pos 10000000) quantity.0 },
}

impl VestingRow {
    pub fn new(
        half_hour: HalfHour,
        account: i64,
        tranche: i64,
        price: i64,
        quantity: i64,
    ) -> Result<VestingRow, Refusal>
        ensures made { MatchResult result (λ v. (v.key.half_hour ≡ half_hour) × (pos v.key.account ≡ account) × (pos v.key.tranche ≡ tranche) × (v.price.0 ≡ price) × (v.quantity.0 ≡ quantity)) (λ e. e ≡ OutOfRange) }
        ensures accepts { is_ok result ≡ (inside account_range account && inside tranche_range tranche && inside price_range price && inside quantity_range quantity) }
    {
        let account = ACCOUNT.take(account)? as u16;
        let tranche = TRANCHE.take(tranche)? as u8;
        let price = Price(PRICE.take(price)?);
        let quantity = Energy(QUANTITY.take(quantity)?);
        Ok(VestingRow {
            key: VestingKey {
                half_hour,
                account,
                tranche,
            },
            price,
            quantity,
        })
    }
}

impl Row for VestingRow {
    type Key = VestingKey;

    ghost numbers = { λ k. tranche_key k.half_hour.day k.half_hour.interval k.account k.tranche };

    ghost carried = { λ r. tranche_key r.key.half_hour.day r.key.half_hour.interval r.key.account r.key.tranche };

    ghost tells = { first_of (Prim.search rules, Prim.grind (arith, Self.row.coded.inj)) };

    fn key(&self) -> VestingKey {
        self.key
    }

    fn half_hour(&self) -> HalfHour {
        self.key.half_hour
    }
}
