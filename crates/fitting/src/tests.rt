// The two kinds together: addresses, counted by a Space-Saving counter, metered, and marked on a tape. What is due is reckoned from the rules.
use crate::ipv6::Ipv6;
use crate::serving::{mark_addresses, meter_addresses};
use crate::space_saving::SpaceSaving;
use flow::counter::FrameCounter;
use flow::key::FlowKey;
use flow::limits::{LEAST_SCRATCH, LEAST_TEXT, MOST_MARKS};
use flow::refusal::Refusal;
use frame::plan::Plan;
use meter::day::{Answered, Areas, Call, Reply};
use meter::record::Record;
use std::alloc::{AllocError, Global};
use std::str;
use std::test::Fail;

// The bytes of the address 2001:db8::host.
const fn bytes(host: u8) -> [u8; 16] {
    [
        0x20, 0x01, 0x0D, 0xB8, 0, 0, 0, 0, 0, 0, 0, 0, 0, 0, 0, host,
    ]
}

// Two places. Host 3 takes over the entry of host 2, which has the least count, 3, and host 4 takes it over from host 3 at 4.
#[test]
fn the_least_count_is_taken_over(rt: HostRuntime) -> Result<(), Fail> {
    let mut counter = SpaceSaving::new();
    counter.open(2, 1)?;
    let adds = [(1, 7, 1), (2, 3, 2), (3, 1, 2), (1, 2, 1), (4, 6, 2)];
    for (host, weight, passes) in adds {
        let code = Ipv6::read(&bytes(host))?.code();
        assert_eq!(rt; counter.add(code, weight)?, passes);
    }
    for (host, estimate) in [(1, 9), (2, 9), (3, 9), (4, 10)] {
        let code = Ipv6::read(&bytes(host))?.code();
        assert_eq!(rt; counter.estimate(code), estimate);
    }
    assert_eq!(rt; counter.volume(), 19);
    Ok(())
}

#[test]
fn sixteen_bytes_spell_an_address(rt: HostRuntime) {
    assert!(rt; Ipv6::read(&bytes(1)).is_ok());
    assert_eq!(rt; Ipv6::read(&[0; 15]), Err(Refusal::NotAKey));
    assert_eq!(rt; Ipv6::read(&[0; 17]), Err(Refusal::NotAKey));
}

// A window of four packets in two blocks. The unit is 10 * 2 = 20, so a flow with no mark is estimated at 40 and more.
const PLAN: Plan = Plan {
    places: 3,
    step: 1,
    most: 10,
    window: 4,
    blocks: 2,
};

// The number in an answer: the passes, the estimate, or how many flows a list has.
fn number_of(answer: &Answered) -> Result<u64, Refusal> {
    match answer {
        Ok(Reply::Took(passes)) => Ok(*passes as u64),
        Ok(Reply::Estimated(estimate)) => Ok(*estimate),
        Ok(Reply::Listed(records)) => Ok(records.len() as u64),
        Ok(_) => Ok(0),
        Err(refusal) => Err(*refusal),
    }
}

// The second packet lifts host 1 from 10 to 20 and makes a mark.
#[test]
fn addresses_are_metered(rt: HostRuntime) -> Result<(), Fail> {
    let one = Ipv6::read(&bytes(1))?;
    let two = Ipv6::read(&bytes(2))?;
    let calls = [
        Call::Packet(one, 10),
        Call::Plan(PLAN),
        Call::Packet(one, 10),
        Call::Packet(one, 10),
        Call::Packet(two, 11),
        Call::Estimate(one),
        Call::Estimate(two),
        Call::List(60, Areas::ample()),
    ];
    let due = [
        Err(Refusal::NotTakenNow),
        Ok(0),
        Ok(1),
        Ok(1),
        Err(Refusal::WeightAbovePlan),
        Ok(60),
        Ok(40),
        Ok(1),
    ];
    let answers = meter_addresses(rt.alloc(), &calls)?;
    assert_eq!(rt; answers.len(), due.len());
    for (answer, due) in answers.iter().zip(due) {
        assert_eq!(rt; number_of(answer), due);
    }
    Ok(())
}

// Kinds 3 and 3, and the plan.
const HEAD: [u8; 19] = [3, 3, 1, 0, 3, 0, 0, 0, 1, 0, 0, 0, 10, 0, 0, 0, 4, 0, 2];

// The level 60, and a list.
const LIST: [u8; 10] = [6, 0, 0, 0, 0, 0, 0, 0, 60, 4];

// Puts a command with an address on the tape, with what follows the address.
fn put(tape: &mut Vec<u8>, command: u8, host: u8, rest: &[u8]) -> Result<(), AllocError> {
    tape.push(command)?;
    tape.extend_from_slice(&bytes(host))?;
    tape.extend_from_slice(rest)
}

// The tape of the test below.
fn tape(heap: Global) -> Result<Vec<u8>, AllocError> {
    let mut tape = Vec::new(heap);
    tape.extend_from_slice(&HEAD)?;
    for (host, weight) in [(1, 10), (2, 9), (3, 8), (4, 5)] {
        put(&mut tape, 2, host, &[0, 0, 0, weight])?;
    }
    put(&mut tape, 3, 3, &[])?;
    put(&mut tape, 3, 4, &[])?;
    put(&mut tape, 2, 1, &[0, 0, 0, 10])?;
    put(&mut tape, 2, 1, &[0, 0, 0, 10])?;
    put(&mut tape, 3, 1, &[])?;
    tape.extend_from_slice(&LIST)?;
    put(&mut tape, 2, 1, &[0, 0, 0, 11])?;
    tape.push(8)?;
    Ok(tape)
}

// Host 4 takes over the third entry, of host 3 with 8, and has 13; so host 3 is estimated by the least count, which is 9 then.
// The fifth packet begins a new frame, and the sixth makes a mark. The command that is refused stands behind 206 bytes.
const LINES: &str = "\
open
took 1
took 2
took 3
took 3
est 49
est 53
took 1
took 1
est 60
level 60
list 1
flow 2306139568115548160 1 60
no 10 206
closed 6 52
";

#[test]
fn a_tape_is_marked(rt: HostRuntime) -> Result<(), Fail> {
    let heap = rt.alloc();
    let mut text = vec![in heap; 0; LEAST_TEXT]?;
    let mut scratch = vec![in heap; 0; LEAST_SCRATCH]?;
    let mut table = vec![in heap; Record::default(); MOST_MARKS]?;
    let lines = mark_addresses(heap, &tape(heap)?, &mut text, &mut scratch, &mut table)?;
    assert_eq!(rt; str::from_utf8(&lines)?, LINES);
    Ok(())
}
