// What a participant is credited over the lines of a statement (NPSC).
ghost use Rattle.std.specs.Prelude.{◌≡◌, ◌≤◌, not, [], ◌∷◌, length, is_some, IfOk, Some};
ghost use Rattle.units.specs.Checks.{first_met};
ghost use Rattle.units.specs.Ranges.{accounts};
ghost use Rattle.units.specs.Refusals.{answer_number};
ghost use Rattle.units.specs.declared.refusal.Refusal.TheVariants.{BalanceBeyondLimit};
ghost use Rattle.house.specs.Open.{check};
ghost use Rattle.house.specs.State.{house_says};
ghost use Rattle.statement.specs.Participants.{npsc_of, credited, credits, npsc_checks};

use crate::preliminary::check_lines;
use figures::Line;
use house::House;
use units::range::ACCOUNT;
use units::{ACCOUNTS, Money, Range, Refusal};

// A running sum of credits.
const SUM: Range = Range {
    low: -1_000_000_000_000_000_000,
    high: 1_000_000_000_000_000_000,
};

// What a line credits to a participant.
fn credited(house: &House, participant: u16, line: &Line) -> Money
    ensures { result.0 ≡ credited (house_says house.now).participants participant line.now }
{
    match house.participant(line.account) {
        Ok(p) if p == participant => line.nasc,
        _ => Money(0),
    }
}

// The sum of what the first 96 lines credit to a participant, in their order.
fn sum_credited(house: &House, participant: u16, lines: &[Line]) -> Result<Money, Refusal>
    requires { accounts ≤ length lines.now }
    ensures answer { answer_number result ≡ first_met (check 15 (not (is_some (credits (house_says house.now) participant lines.now))) ∷ []) }
    ensures value { IfOk result (λ m. credits (house_says house.now) participant lines.now ≡ Some m.0) }
{
    let mut sum = Money(0);
    for line in &lines[..ACCOUNTS] {
        sum = sum
            .plus_within(credited(house, participant, line), SUM)
            .ok_or(Refusal::BalanceBeyondLimit)?;
    }
    Ok(sum)
}

// What a participant is credited over the lines of a statement.
pub fn npsc(house: &House, participant: i64, lines: &[Line]) -> Result<Money, Refusal>
    ensures answer { answer_number result ≡ first_met (npsc_checks (house_says house.now) participant lines.now) }
    ensures value { IfOk result (λ m. npsc_of (house_says house.now) participant lines.now ≡ Some m.0) }
{
    let participant = ACCOUNT.take(participant)? as u16;
    check_lines(lines.len())?;
    sum_credited(house, participant, lines)
}
