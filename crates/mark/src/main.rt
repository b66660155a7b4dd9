// Marks the tape on standard input, and prints its lines.
#![tactic(auto)]

mod kinds;
mod marking;
#[cfg(test)]
mod tests;

use crate::marking::mark;
use flow::limits::{LEAST_SCRATCH, LEAST_TEXT, MOST_MARKS, MOST_TAPE};
use meter::record::Record;
use std::io::{Read, Write};

fn main(rt: HostRuntime) -> anyhow::Result<()> {
    // One byte more than a tape may have tells one that is too long.
    let mut tape = Vec::new(rt.alloc());
    rt.stdin()
        .take(MOST_TAPE as u64 + 1)
        .read_to_end(&mut tape)?;
    let mut text = [0u8; LEAST_TEXT];
    let mut scratch = [0u8; LEAST_SCRATCH];
    let mut table = [Record::default(); MOST_MARKS];
    let lines = mark(rt.alloc(), &tape, &mut text, &mut scratch, &mut table)?;
    rt.stdout().write_all(&lines)?;
    Ok(())
}
