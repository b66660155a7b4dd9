// What is printed of a run.
use flow::account::Account;
use flow::counter::FrameCounter;
use flow::refusal::Refusal;
use frame::plan::Plan;
use meter::meter::Meter;
use std::io;
use streams::arguments::Arguments;
use streams::run::{Totals, perform};
use streams::stream::Stream;

// How many flows are shown at most.
const SHOWN: u64 = 10;

// Prints a refusal.
fn show_refusal(rt: &HostRuntime, what: &str, refusal: Refusal) -> io::Result<()> {
    let number = refusal.number();
    println!(rt; "{what} is refused ({number}): {refusal}")
}

// Prints the plan that was accepted.
fn show_plan<C: FrameCounter>(rt: &HostRuntime, meter: &Meter<C>) -> io::Result<()> {
    if let Some(plan) = meter.planned() {
        let unit = meter.unit().unwrap_or(0);
        let Plan {
            places,
            step,
            most,
            window,
            blocks,
        } = plan;
        println!(rt;
            "Plan: places {places}, step {step}, greatest weight {most}, window {window}, blocks {blocks}"
        )?;
        println!(rt; "Unit of marks: {unit}")?;
    }
    Ok(())
}

// Prints the estimates of the first flows, each beside the flow's volume in the window.
fn show_estimates<C: FrameCounter>(
    rt: &HostRuntime,
    meter: &Meter<C>,
    stream: &Stream,
    arguments: &Arguments,
) -> io::Result<()> {
    for flow in 0..arguments.flows.min(SHOWN) {
        let volume = stream.volume_in_window(flow, arguments.packets, arguments.plan.window);
        match Account::new(flow).and_then(|key| meter.estimate(&key)) {
            Ok(estimate) => println!(rt; "Flow {flow}: estimate {estimate}, true volume {volume}")?,
            Err(refusal) => show_refusal(rt, "An estimate", refusal)?,
        }
    }
    Ok(())
}

// Does the run that the arguments ask for with a new counter, and prints it.
pub(crate) fn perform_and_show<C: FrameCounter + Drop>(
    rt: &HostRuntime,
    counter: C,
    arguments: &Arguments,
) -> io::Result<()> {
    let stream = arguments.stream();
    let run = match perform(counter, arguments.plan, &stream, arguments.packets) {
        Ok(run) => run,
        Err(refusal) => return show_refusal(rt, "The plan", refusal),
    };
    show_plan(rt, &run.meter)?;
    let Totals { packets, passes } = run.totals;
    println!(rt; "Accepted: {packets} packets\nSum of passes: {passes}")?;
    match run.refusal {
        Some(refusal) => show_refusal(rt, "The next packet", refusal),
        None => show_estimates(rt, &run.meter, &stream, arguments),
    }
}
