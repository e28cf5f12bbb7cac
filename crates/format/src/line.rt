// The bytes of a line, and what they say.
ghost use Rattle.std.specs.Prelude.{◌≡◌};
ghost use Rattle.format.specs.Lines.{of_fields, said_by};
ghost use Rattle.format.specs.Fields.{fields_of};

use crate::blanks::trimmed;
use crate::call::{Call, Malformed};
use crate::table::called;
use arrayvec::ArrayVec;
use lines::text::number;

// A house line has three numbers, and may have a participant for each account after them: no line has more.
const MOST: usize = 99;

// The call of a text, a word and the numbers after it, between commas; none where it is not of the format.
fn call_of(text: &[u8]) -> Option<Call>
    ensures { result ≡ of_fields (fields_of text.now) }
{
    let mut fields = text.split(|byte| *byte == b',');
    let word = fields.next()?;
    let mut numbers: ArrayVec<i64, MOST> = ArrayVec::new();
    for field in fields {
        numbers.try_push(number(field)?).ok()?;
    }
    called(word, numbers.as_slice())
}

// What a line says: nothing where it is empty or a remark.
pub fn said(line: &[u8]) -> Result<Option<Call>, Malformed>
    ensures { result ≡ said_by line.now }
{
    match trimmed(line) {
        [] | [b'#', ..] => Ok(None),
        text => Ok(Some(call_of(text).ok_or(Malformed)?)),
    }
}
