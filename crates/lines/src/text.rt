// Bytes of a line: where a byte stands, and the number that digits write.
ghost use Rattle.std.specs.Prelude.{◌≡◌, ℕ, ◌<◌, ◌≤◌, length, ◌≢◌, slice_index};
ghost use Rattle.lines.specs.Numerals.{whole_number, written_number};

// The farthest from zero that a written number is told apart: one farther is read as this far.
const FAR: u64 = 1_000_000_000_000_000_000;

// The first place of a byte, or the text's length where it does not stand in it.
pub fn place_of(text: &[u8], byte: u8) -> usize
    ensures within { result ≤ length text.now }
    ensures before { (k : ℕ) → k < result → slice_index text.now k ≢ byte }
    ensures found { result < length text.now → slice_index text.now result ≡ byte }
{
    text.iter().position(|b| *b == byte).unwrap_or(text.len())
}

// The number that one or more digits write, held to FAR; none where there is no digit or something else.
fn magnitude(digits: &[u8]) -> Option<u64>
    ensures { result ≡ whole_number digits.now }
{
    if digits.is_empty() {
        return None;
    }
    let mut upto = 0;
    for b in digits {
        if !b.is_ascii_digit() {
            return None;
        }
        upto = (upto * 10 + u64::from(*b - b'0')).min(FAR);
    }
    Some(upto)
}

// The number that an optional minus and one or more digits write, held to FAR on either side of zero; none where
// anything else is written.
pub fn number(text: &[u8]) -> Option<i64>
    ensures { result ≡ written_number text.now }
{
    match text {
        [b'-', digits @ ..] => {
            let size = magnitude(digits)?;
            Some(-(size as i64))
        }
        _ => {
            let size = magnitude(text)?;
            Some(size as i64)
        }
    }
}
