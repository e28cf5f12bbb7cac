// The input as lines: those up to the interval open the half hour, those after it fill it, and it is settled at the end.
use crate::desk::Desk;
use crate::posting::{Balance, balances_of};
use crate::said::call_in;
use crate::stop::{Halt, Stop};
use crate::tally::Tally;
use figures::{Figures, settle};
use format::blanks::trimmed;
use lines::line::Lines;
use records::Inputs;
use units::{ACCOUNTS, Refusal};

#[derive(Clone, Copy)]
pub struct Settled {
    pub tally: Tally,
    pub figures: Figures,
    pub balances: [Balance; ACCOUNTS],
}

// Takes what a line says.
fn take_line(desk: &mut Desk, line: &[u8]) -> Result<(), Stop> {
    match call_in(line)? {
        None => Ok(()),
        Some(call) => desk.take(&call),
    }
}

// The half hour settled, and its statement posted.
fn settle_and_post(inputs: &Inputs) -> Result<Settled, Refusal> {
    let figures = settle(inputs)?;
    let balances = balances_of(&figures)?;
    Ok(Settled {
        tally: Tally::of(inputs),
        figures,
        balances,
    })
}

// What the desk has come to once every line is taken.
fn finish(desk: &Desk) -> Result<Settled, Stop> {
    settle_and_post(desk.inputs()?).map_err(Stop::Unsettled)
}

// What the input comes to: the settled half hour, or where it stops.
pub(crate) fn answer(input: &[u8]) -> Result<Settled, Halt<'_>> {
    let mut desk = Desk::Closed;
    let mut number: usize = 1;
    for line in (Lines { rest: input }) {
        if let Err(stop) = take_line(&mut desk, line) {
            let line = trimmed(line);
            return Err(Halt { stop, number, line });
        }
        // counted along, since the end of input is told as the line after the last; no promise says that 64 bits count them
        number = number.saturating_add(1);
    }
    finish(&desk).map_err(|stop| Halt {
        stop,
        number,
        line: b"",
    })
}
