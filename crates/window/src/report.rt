// What is printed of a log.
use flow::limits::ERROR_UNITS;
use frame::layout::Layout;
use inputs::failure::Failure;
use logs::heading::{Asks, KeyKind};
use logs::interval::Interval;
use logs::line::Unread;
use logs::log::{Note, meter_log};
use logs::wording::{Asked, Replied};
use logs::written::{Written, WrittenKey};
use meter::day::{Answered, Call, Reply};
use meter::record::Record;
use std::io;

// Meters a log, and prints what was performed. Its heading stands on the line of this number.
pub(crate) fn show_log<K: WrittenKey>(
    rt: &HostRuntime,
    keys: KeyKind,
    number: u64,
    asks: Option<Asks>,
    lines: &[&[u8]],
) -> anyhow::Result<()> {
    let metered = meter_log::<K>(rt.alloc(), asks, lines)?;
    show_title(rt, keys, number, asks)?;
    let mut answered = metered.log.calls.iter().zip(&metered.answers);
    if asks.is_some()
        && let Some((call, answer)) = answered.next()
    {
        show_call(rt, number, call, answer)?;
        show_unit(rt, metered.layout)?;
    }
    let mut number = number;
    for note in &metered.log.notes {
        number = number.saturating_add(1);
        match note {
            Note::Blank => {}
            Note::Wrong(failure) => show_failure(rt, number, *failure)?,
            Note::Call => {
                if let Some((call, answer)) = answered.next() {
                    show_call(rt, number, call, answer)?;
                }
            }
        }
    }
    if let Some((_, answer)) = answered.next() {
        show_heavy::<K>(rt, metered.layout, answer)?;
    }
    println!(rt)?;
    Ok(())
}

// Prints the title of a log, and where its heading cannot be read, that too.
fn show_title(rt: &HostRuntime, keys: KeyKind, number: u64, asks: Option<Asks>) -> io::Result<()> {
    let Some(Asks { counter, level, .. }) = asks else {
        println!(rt; "Packet log: {keys} keys, no plan\n")?;
        return show_failure(rt, number, Failure::Unread(Unread::Heading));
    };
    println!(rt; "Packet log: {keys} keys, {counter} counter, level {level}\n")
}

// Prints the unit of an accepted plan, and what it bounds.
fn show_unit(rt: &HostRuntime, layout: Option<Layout>) -> io::Result<()> {
    let Some(layout) = layout else {
        return Ok(());
    };
    let unit = layout.unit();
    let bound = ERROR_UNITS * unit;
    println!(rt;
        "  The unit T is {unit}: an estimate exceeds the true volume by less than 4 T = {bound}."
    )
}

// Prints why a line made no call, or why its call was refused.
fn show_failure(rt: &HostRuntime, number: u64, failure: Failure<Unread>) -> io::Result<()> {
    println!(rt; "Line {number}. {failure}")
}

// Prints a call and its answer.
fn show_call<K: WrittenKey>(
    rt: &HostRuntime,
    number: u64,
    call: &Call<K>,
    answer: &Answered,
) -> anyhow::Result<()> {
    match answer {
        Ok(reply) => {
            let asked = Asked(call);
            let replied = Replied(reply);
            println!(rt; "Line {number}. {asked}: {replied}.")?;
            if let Reply::Listed(records) = reply {
                show_records::<K>(rt, records)?;
            }
            Ok(())
        }
        Err(refusal) => Ok(show_failure(rt, number, Failure::Refused(*refusal))?),
    }
}

// Prints the flows of a list with their estimates.
fn show_records<K: WrittenKey>(rt: &HostRuntime, records: &[Record]) -> anyhow::Result<()> {
    for record in records {
        let key = K::of_code(record.code)?;
        let written = Written(&key);
        let estimate = record.estimate;
        println!(rt; "  {written}: {estimate}")?;
    }
    Ok(())
}

// Prints the heavy flows at the end of a log, each with its estimate and the interval of its true volume.
fn show_heavy<K: WrittenKey>(
    rt: &HostRuntime,
    layout: Option<Layout>,
    answer: &Answered,
) -> anyhow::Result<()> {
    match answer {
        Ok(reply) => {
            let replied = Replied(reply);
            println!(rt; "\nHeavy flows at the end: {replied}.")?;
            if let (Reply::Listed(records), Some(layout)) = (reply, &layout) {
                show_intervals::<K>(rt, layout, records)?;
            }
            Ok(())
        }
        Err(refusal) => {
            let failure: Failure<Unread> = Failure::Refused(*refusal);
            println!(rt; "\nHeavy flows at the end. {failure}")?;
            Ok(())
        }
    }
}

// Prints flows with their estimates and the intervals of their true volumes.
fn show_intervals<K: WrittenKey>(
    rt: &HostRuntime,
    layout: &Layout,
    records: &[Record],
) -> anyhow::Result<()> {
    for record in records {
        let key = K::of_code(record.code)?;
        let written = Written(&key);
        let estimate = record.estimate;
        let Interval { low, high } = Interval::of(estimate, layout);
        println!(rt; "  {written}: estimate {estimate}, true volume from {low} to {high}")?;
    }
    Ok(())
}
