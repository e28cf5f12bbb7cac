// The lines up to the one that opens the house.
ghost use Rattle.std.specs.Prelude.{◌≡◌, ℕ, drop};
ghost use Rattle.lines.specs.Lines.{lines_of};

use crate::answer::Answer;
use format::call::Call;
use format::line::said;
use house::{House, Opening};
use lines::line::Lines;
use std::io;

// The house that a line opens; none where the line says nothing.
fn opened(line: &[u8]) -> Result<Option<House>, Answer> {
    match said(line)? {
        None => Ok(None),
        Some(Call::House(call)) => Ok(Some(House::open(Opening::new(&call)?))),
        Some(_) => Err(Answer::NoHouse),
    }
}

// Answers the lines up to the one that opens the house, and leaves those after it; none where no line does.
pub(crate) fn open_house(rt: &HostRuntime, lines: &mut Lines) -> io::Result<Option<House>>
    ensures left { (n : ℕ) × (lines_of lines.new.rest.now ≡ drop n (lines_of lines.old.rest.now)) }
{
    // no `for`: what it leaves of a lent iterator has no name that a proof may cite, and `left` speaks of it
    while let Some(line) = lines.next() {
        match opened(line) {
            Ok(None) => {}
            Ok(Some(house)) => {
                println!(rt; "{}", Answer::Accepted)?;
                return Ok(Some(house));
            }
            Err(answer) => println!(rt; "{answer}")?,
        }
    }
    Ok(None)
}
