// What a line says to this program, which knows only the calls up to vesting.
use format::call::{Call, Malformed};
use format::line::said;

// The call of a line; none where the line says nothing.
pub(crate) fn call_in(line: &[u8]) -> Result<Option<Call>, Malformed> {
    match said(line)? {
        Some(Call::Preliminary(_) | Call::Withdraw(_) | Call::Npsc(_)) => Err(Malformed),
        call => Ok(call),
    }
}
