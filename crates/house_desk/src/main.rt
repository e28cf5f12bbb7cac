// The settlement house at a desk: calls are read from standard input, a line each, and each is answered in its turn.
#![tactic(auto)]

mod answer;
mod desk;
mod held;
mod opening;
mod print;

use crate::desk::Desk;
use crate::opening::open_house;
use lines::line::Lines;
use std::io;
use std::io::Read;

// Answers the calls of an input, and withdraws every statement that is then held, also where an answer cannot be given.
fn answer_calls(rt: &HostRuntime, input: &[u8]) -> io::Result<()> {
    let mut lines = Lines { rest: input };
    let Some(house) = open_house(rt, &mut lines)? else {
        return Ok(());
    };
    let mut desk = Desk::new(rt.alloc(), house)?;
    let answered = desk.answer_lines(rt, lines);
    let closed = desk.close(rt);
    answered?;
    closed
}

fn run(rt: &HostRuntime) -> anyhow::Result<()> {
    let mut given = Vec::new(rt.alloc());
    rt.stdin().read_to_end(&mut given)?;
    answer_calls(rt, given.as_slice())?;
    Ok(())
}

fn main(rt: HostRuntime) -> anyhow::Result<()> {
    run(&rt)
}
