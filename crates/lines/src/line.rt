// The lines of a text: each ends with a line feed, and the last may end without one.
ghost use Rattle.std.specs.Prelude.{◌≡◌, ◌<◌, length};
ghost use Rattle.std.specs.Iterator.{YieldsFirstRef, item_count};
ghost use Rattle.lines.specs.Lines.{after_line_of, first_line_of, lines_of};

use crate::text::place_of;

// The first line of a text.
pub fn first_line(text: &[u8]) -> &[u8]
    ensures { result.now ≡ first_line_of text.now }
{
    &text[..place_of(text, b'\n')]
}

// What follows the first line of a text.
pub fn after_line(text: &[u8]) -> &[u8]
    ensures value { result.now ≡ after_line_of text.now }
    ensures shorter { 0 < length text.now → length result.now < length text.now }
{
    let end = place_of(text, b'\n');
    text.get(end + 1..).unwrap_or(b"")
}

// The lines that are left of a text, one by one.
#[derive(Drop)]
pub struct Lines<'a> {
    pub rest: &'a [u8],
}

impl<'a> Iterator for Lines<'a> {
    type Item = &'a [u8];

    ghost next_gives = { YieldsFirstRef (λ s. lines_of s.rest.now) };

    ghost remaining = { item_count (λ s. lines_of s.rest.now) };

    fn next(&mut self) -> Option<&'a [u8]> {
        if self.rest.is_empty() {
            return None;
        }
        let line = first_line(self.rest);
        self.rest = after_line(self.rest);
        Some(line)
    }
}
