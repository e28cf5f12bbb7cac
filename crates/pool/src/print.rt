// What the program prints: the settled half hour, or where it stopped. What is one text is printed by its `Display`; these
// functions write several.
use crate::input::Settled;
use crate::posting::Balance;
use crate::stop::{Halt, Stop};
use std::io;
use std::io::Write;
use units::ACCOUNTS;

// The balances that are not zero.
fn print_balances(rt: &HostRuntime, balances: &[Balance; ACCOUNTS]) -> io::Result<()> {
    for (k, balance) in balances.iter().enumerate() {
        if balance.exact.0 != 0 {
            println!(rt; "balance,{},{},{}", k + 1, balance.exact, balance.payable)?;
        }
    }
    Ok(())
}

fn print_settled(rt: &HostRuntime, settled: &Settled) -> io::Result<()> {
    println!(rt; "{}", settled.tally)?;
    println!(rt; "uplift rate,{}", settled.figures.uplift.rate.0)?;
    println!(rt; "account,GESC,LESD,BSC,VCSC,FEE,HEUC,NASC")?;
    for line in &settled.figures.lines {
        if line.nasc.0 != 0 {
            println!(rt; "{line}")?;
        }
    }
    print_balances(rt, &settled.balances)
}

// A line of the input, with its number.
fn print_text(rt: &HostRuntime, number: usize, text: &[u8]) -> io::Result<()> {
    print!(rt; "line {number}: ")?;
    rt.stdout().write_all(text)?;
    println!(rt; "")
}

fn print_halt(rt: &HostRuntime, halt: &Halt) -> io::Result<()> {
    println!(rt; "{halt}")?;
    match halt.stop {
        Stop::Refused(_) => print_text(rt, halt.number, halt.line),
        _ => Ok(()),
    }
}

// Prints what the input came to.
pub(crate) fn print_answer(rt: &HostRuntime, answer: &Result<Settled, Halt>) -> io::Result<()> {
    match answer {
        Ok(settled) => print_settled(rt, settled),
        Err(halt) => print_halt(rt, halt),
    }
}
