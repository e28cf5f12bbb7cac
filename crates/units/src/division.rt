// Quotients of a signed number by a positive divisor, in the three roundings that the rules use.
// A divisor of zero has no quotient. One function with the rounding as an argument would be no plainer: its contract and
// its body would be told by the cases of that argument.
ghost use Rattle.std.specs.Prelude.{◌≡◌, ◌<◌, MatchOption};
ghost use Rattle.units.specs.Division.{floor, nearest, towards_zero};

// Rounded towards minus infinity.
pub fn div_floor(n: i128, d: u64) -> Option<i128>
    ensures { MatchOption result (d ≡ 0) (λ q. (0 < d) × (q ≡ floor n d)) }
{
    n.checked_div_euclid(d as i128)
}

// Rounded towards zero.
pub fn div_towards_zero(n: i128, d: u64) -> Option<i128>
    ensures { MatchOption result (d ≡ 0) (λ q. (0 < d) × (q ≡ towards_zero n d)) }
{
    n.checked_div(d as i128)
}

// Rounded to the nearest whole, halves upwards.
pub fn div_nearest(n: i128, d: u64) -> Option<i128>
    ensures { MatchOption result (d ≡ 0) (λ q. (0 < d) × (q ≡ nearest n d)) }
{
    let down = div_floor(n, d)?;
    let left = n.rem_euclid(d as i128);
    if 2 * left >= d as i128 {
        Some(down + 1)
    } else {
        Some(down)
    }
}
