// The opening of a house and of its intervals.
ghost use Rattle.std.specs.Prelude.{◌≡◌, ℕ, ◌-◌, ◌<◌, true, false, not, [], ◌∷◌, map, IfOk, MatchResult, slice_index, unsigned_abs};
ghost use Rattle.units.specs.Checks.{first_met};
ghost use Rattle.units.specs.Ranges.{Account, account_range, accounts, inside};
ghost use Rattle.units.specs.Refusals.{answer_number};
ghost use Rattle.units.specs.declared.refusal.Refusal.TheVariants.{OutOfRange};
ghost use Rattle.register.specs.Rows.{placed};
ghost use Rattle.rows.specs.Meaning.{interval_named, interval_rows};
ghost use Rattle.house.specs.Calls.{interval_given};
ghost use Rattle.house.specs.Open.{check};
ghost use Rattle.house.specs.Rows.{interval_checks, not_after, with_latest};
ghost use Rattle.house.specs.State.{OpeningIs, all_participants, house_says, key_of, newly_opened, opening_checks};

use crate::open::put_row;
use crate::opening::Opening;
use crate::state::House;
use crate::taken::taken_interval;
use calls::{HouseCall, IntervalCall};
use records::Terms;
use rows::Interval;
use units::range::{ACCOUNT, HOUSE};
use units::{ACCOUNTS, HalfHour, Money, Refusal};

// The number of an account, refused by 1 where there is none.
fn account(z: i64) -> Result<u16, Refusal>
    ensures { MatchResult result (λ a. (a ≡ unsigned_abs z) × (inside account_range z ≡ true)) (λ e. (e ≡ OutOfRange) × (inside account_range z ≡ false)) }
{
    Ok(ACCOUNT.take(z)? as u16)
}

// Each account's participant, refused by 1 where one is none.
fn taken_participants(given: &[i64; ACCOUNTS]) -> Result<[u16; ACCOUNTS], Refusal>
    ensures answer { answer_number result ≡ first_met (check 1 (not (all_participants given.now)) ∷ []) }
    ensures participants { IfOk result (λ p. p ≡ map unsigned_abs given.now) }
    ensures within { IfOk result (λ p. (k : ℕ) → k < accounts → Account (slice_index p k)) }
{
    // A loop, for speed: `try_map` and `try_from_fn` move each number through lists of options, at five and nearly four
    // times the instructions.
    let mut participants = [0; ACCOUNTS];
    for k in 0..ACCOUNTS {
        participants[k] = ACCOUNT.take(given[k])? as u16;
    }
    Ok(participants)
}

impl Opening {
    // The checks of a house's opening.
    pub fn new(call: &HouseCall) -> Result<Opening, Refusal>
        ensures answer { answer_number result ≡ first_met (opening_checks call.now) }
        ensures opening { IfOk result (OpeningIs call.now) }
    {
        let number = HOUSE.take(call.number)? as u16;
        let counterparty = account(call.counterparty)?;
        let operator = account(call.operator)?;
        let participants = taken_participants(&call.participants)?;
        if counterparty == operator {
            return Err(Refusal::SameParty);
        }
        Ok(Opening {
            number,
            participants,
            counterparty,
            operator,
        })
    }
}

impl House {
    // A house with no interval opened and nothing pending.
    pub fn open(opening: Opening) -> House
        ensures { house_says result ≡ newly_opened opening }
    {
        House {
            opening,
            latest: None,
            pending: Money(0),
        }
    }

    // The house's number.
    pub fn number(&self) -> u16
        ensures { result ≡ (house_says self.now).number }
    {
        self.opening.number
    }

    // The participant of an account, refused by 1 where there is no such account.
    pub fn participant(&self, account: u16) -> Result<u16, Refusal>
        ensures { MatchResult result (λ p. Account account × (p ≡ slice_index (house_says self.now).participants (account - 1))) (λ e. (e ≡ OutOfRange) × (Account account → ⊥)) }
    {
        let index = account.checked_sub(1).ok_or(Refusal::OutOfRange)?;
        let participant = self.opening.participants.get(index as usize);
        participant.copied().ok_or(Refusal::OutOfRange)
    }

    // The terms of an interval in this house: its prices, the two standing accounts, and what is pending.
    pub fn terms(&self, interval: &Interval) -> Terms
        ensures prices { (result.usep ≡ interval.now.usep) × (result.rate ≡ interval.now.rate) }
        ensures house { (result.counterparty ≡ (house_says self.now).counterparty) × (result.operator ≡ (house_says self.now).operator) × (result.pending.0 ≡ (house_says self.now).pending) }
    {
        Terms {
            usep: interval.usep,
            rate: interval.rate,
            counterparty: self.opening.counterparty,
            operator: self.opening.operator,
            pending: self.pending,
        }
    }

    // Refused by 3 where the half hour does not come after the latest opened.
    fn check_after(&self, half_hour: HalfHour) -> Result<(), Refusal>
        ensures { answer_number result ≡ first_met (check 3 (not_after (key_of half_hour) (house_says self.now).latest) ∷ []) }
    {
        if self.latest.is_some_and(|latest| half_hour <= latest) {
            return Err(Refusal::NotAfterLatest);
        }
        Ok(())
    }

    // Opens an interval.
    pub fn open_interval(
        &mut self,
        intervals: &mut [Option<Interval>],
        call: &IntervalCall,
    ) -> Result<(), Refusal>
        ensures answer { answer_number result ≡ first_met (interval_checks call.now (house_says self.old) (interval_rows intervals.old)) }
        ensures house { MatchResult result (λ _. house_says self.new ≡ with_latest call.now (house_says self.old)) (λ _. self.new ≡ self.old) }
        ensures intervals { MatchResult result (λ _. interval_rows intervals.new ≡ placed interval_named (interval_rows intervals.old) (interval_given call.now)) (λ _. intervals.new ≡ intervals.old) }
    {
        let interval = taken_interval(call)?;
        self.check_after(interval.half_hour)?;
        put_row(intervals, interval)?;
        self.latest = Some(interval.half_hour);
        Ok(())
    }
}
