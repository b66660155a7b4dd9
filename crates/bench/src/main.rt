// Meters a made stream of packets, and prints what was done.
#![tactic(auto)]

mod show;

use crate::show::perform_and_show;
use inputs::kind::CounterKind;
use meter::meter::Meter;
use semi::SemiOrdered;
use shared::SharedDeduction;
use std::alloc::AllocError;
use std::{env, io};
use streams::arguments::Arguments;

// The bytes that a meter stays below, whatever its window.
const METER_BYTES: usize = 32 * 1024;

const _: () = prove!(size_of::<Meter<SemiOrdered>>() < METER_BYTES);

const _: () = prove!(size_of::<Meter<SharedDeduction>>() < METER_BYTES);

// What is printed where the arguments cannot be read.
const USAGE: &str =
    "Usage: bench PLACES STEP MOST WINDOW BLOCKS PACKETS FLOWS SEED [KIND]\nThe first eight are whole numbers. KIND is semi-ordered, as without it, or shared-deduction.";

// Does the run that the arguments ask for.
fn work(rt: &HostRuntime, arguments: &Arguments) -> io::Result<()> {
    println!(rt; "Counter: {}", arguments.kind)?;
    match arguments.kind {
        CounterKind::SemiOrdered => perform_and_show(rt, SemiOrdered::new(), arguments),
        CounterKind::SharedDeduction => perform_and_show(rt, SharedDeduction::new(), arguments),
    }
}

// The arguments that the program was given, where they can be read.
fn given(rt: &HostRuntime) -> Result<Option<Arguments>, AllocError> {
    let Ok(all) = env::args(rt) else {
        return Ok(None);
    };
    let mut words = Vec::new(rt.alloc());
    for word in all.skip(1) {
        words.push(word)?;
    }
    Ok(Arguments::read(&words))
}

fn main(rt: HostRuntime) -> anyhow::Result<()> {
    match given(&rt)? {
        Some(arguments) => work(&rt, &arguments)?,
        None => println!(rt; "{USAGE}")?,
    }
    Ok(())
}
