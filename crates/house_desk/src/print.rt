// What the program prints. What is one text is printed by its `Display`; these functions write several, or choose one.
use crate::answer::Answer;
use figures::Line;
use std::io;
use units::{HalfHour, Refusal};

// The lines of a statement: a header, and each line whose NASC is not zero. The other program prints them too: the two
// share no crate that prints.
pub(crate) fn print_lines(rt: &HostRuntime, lines: &[Line]) -> io::Result<()> {
    println!(rt; "account,GESC,LESD,BSC,VCSC,FEE,HEUC,NASC")?;
    for line in lines {
        if line.nasc.0 != 0 {
            println!(rt; "{line}")?;
        }
    }
    Ok(())
}

// A statement that was withdrawn at the end of input, or what it was refused by.
pub(crate) fn print_withdrawn(
    rt: &HostRuntime,
    half_hour: HalfHour,
    ended: Result<(), Refusal>,
) -> io::Result<()> {
    match ended {
        Ok(()) => println!(rt; "withdrawn,{},{}", half_hour.day, half_hour.interval),
        Err(refusal) => println!(rt; "{}", Answer::from(refusal)),
    }
}
