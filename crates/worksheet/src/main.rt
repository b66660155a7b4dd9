// Prints worked sheets of the packets on standard input.
#![tactic(auto)]

mod semi_ordered;
mod shared_deduction;
mod sheet;
mod worked;

use crate::sheet::AnySheet;
use std::io;
use std::io::Read;
use text::{Lines, next_line};
use workings::line::Heading;

// Works a line. A heading ends the sheet before it and begins its own.
fn work_line(rt: &HostRuntime, sheet: &mut AnySheet, number: u64, line: &[u8]) -> io::Result<()> {
    let Some(heading) = Heading::read(line) else {
        return sheet.work_line(rt, number, line);
    };
    sheet.end(rt)?;
    *sheet = AnySheet::begin(rt, number, heading)?;
    Ok(())
}

// Works each line. The first is always a heading, even where it is empty or names no kind.
fn work(rt: &HostRuntime, input: &[u8]) -> io::Result<()> {
    let (first, rest) = next_line(input);
    let heading = Heading::read(first).unwrap_or(Heading::UNREAD);
    let mut sheet = AnySheet::begin(rt, 1, heading)?;
    for (number, line) in (2u64..).zip(Lines::of(rest)) {
        work_line(rt, &mut sheet, number, line)?;
    }
    sheet.end(rt)
}

fn main(rt: HostRuntime) -> anyhow::Result<()> {
    let mut input = Vec::new(rt.alloc());
    rt.stdin().read_to_end(&mut input)?;
    work(&rt, &input)?;
    Ok(())
}
