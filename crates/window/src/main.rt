// Meters the packet logs on standard input, and prints what was performed.
#![tactic(auto)]

mod report;

use crate::report::show_log;
use flow::account::Account;
use flow::prefix::Prefix;
use logs::heading::{Heading, KeyKind};
use std::io::Read;
use text::{Lines, next_line};

// Meters a log with the kind of keys that its heading names.
fn meter_lines(
    rt: &HostRuntime,
    number: u64,
    heading: Heading,
    lines: &[&[u8]],
) -> anyhow::Result<()> {
    let Heading { keys, asks } = heading;
    match keys {
        KeyKind::Prefix => show_log::<Prefix>(rt, keys, number, asks, lines),
        KeyKind::Account => show_log::<Account>(rt, keys, number, asks, lines),
    }
}

// Meters each log. A heading ends the log before it and begins its own.
// The first line is always a heading, even where it is empty or names no kind.
fn work(rt: &HostRuntime, input: &[u8]) -> anyhow::Result<()> {
    let (first, rest) = next_line(input);
    let mut heading = Heading::read(first).unwrap_or(Heading::UNREAD);
    let mut begun = 1;
    let mut lines = Vec::new(rt.alloc());
    for (number, line) in (2u64..).zip(Lines::of(rest)) {
        match Heading::read(line) {
            Some(next) => {
                meter_lines(rt, begun, heading, &lines)?;
                heading = next;
                begun = number;
                lines.clear();
            }
            None => lines.push(line)?,
        }
    }
    meter_lines(rt, begun, heading, &lines)
}

fn main(rt: HostRuntime) -> anyhow::Result<()> {
    let mut input = Vec::new(rt.alloc());
    rt.stdin().read_to_end(&mut input)?;
    work(&rt, &input)?;
    Ok(())
}
