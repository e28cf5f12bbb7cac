// The settlement of one half hour, read from standard input: its figures, or the line at which it stops.
#![tactic(auto)]

mod desk;
mod input;
mod posting;
mod print;
mod said;
mod stop;
mod tally;
#[cfg(test)]
mod tests;

use crate::input::answer;
use crate::print::print_answer;
use std::io::Read;

fn run(rt: &HostRuntime) -> anyhow::Result<()> {
    let mut given = Vec::new(rt.alloc());
    rt.stdin().read_to_end(&mut given)?;
    print_answer(rt, &answer(given.as_slice()))?;
    Ok(())
}

fn main(rt: HostRuntime) -> anyhow::Result<()> {
    run(&rt)
}
