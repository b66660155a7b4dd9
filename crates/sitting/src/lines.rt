// The lines that are printed for a tape, written as bytes.
ghost use Rattle.std.specs.Prelude.{◌≡◌, ◌+◌, ◌*◌, ◌≤◌, ◌++◌, length, take};
ghost use Rattle.flow.specs.Limits.{least_text, most_tape};
ghost use Rattle.flow.specs.Refusals.{number};
ghost use Rattle.sitting.specs.Lines.{longest_flow_line, longest_last_line, most_weight_written, line, reply_map, ListStands, flow_line, flow_lines, reply_lines, refusal_line, last_line, pasted, over};

use crate::ending::Ending;
use crate::reply::Reply;
use arrayvec::ArrayVec;
use flow::refusal::Refusal;
use itoa::Buffer;
use meter::record::Record;

// The bytes that a last line has room for.
pub const LONGEST_LAST_LINE: usize = 32;

// Writes the lines of a reply to the front of the text, and answers how many bytes.
// The records of a list stand at the front of the table.
#[tactic(auto, using(crate::proofs::Lengths::line_lengths))]
pub(crate) fn print_reply(reply: Reply<usize>, table: &[Record], text: &mut [u8]) -> usize
    requires list { ListStands reply (length table.now) }
    requires room { least_text ≤ length text.old }
    ensures text { text.new ≡ over (reply_lines (reply_map (λ n. take n table.now) reply)) text.old }
    ensures bytes { result ≡ length (reply_lines (reply_map (λ n. take n table.now) reply)) }
    ensures within { result ≤ length text.old }
{
    match reply {
        Reply::Opened => paste_line(text, 0, b"open", &[]),
        Reply::Took(passes) => paste_line(text, 0, b"took", &[passes as u64]),
        Reply::Estimated(estimate) => paste_line(text, 0, b"est", &[estimate]),
        Reply::Listed(count) => print_list(text, b"list", &[count as u64], &table[..count]),
        Reply::Restarted => paste_line(text, 0, b"restart", &[]),
        Reply::LevelSet(level) => paste_line(text, 0, b"level", &[level]),
        Reply::Tried(level, count) => {
            print_list(text, b"trial", &[level, count as u64], &table[..count])
        }
        Reply::Closed => 0,
    }
}

// Writes the line of a refused command to the front of the text, and answers how many bytes.
#[tactic(auto, using(crate::proofs::Lengths::line_lengths))]
pub(crate) fn print_refusal(refusal: Refusal, offset: usize, text: &mut [u8]) -> usize
    requires { least_text ≤ length text.old }
    ensures text { text.new ≡ over (refusal_line (number refusal) offset) text.old }
    ensures bytes { result ≡ length (refusal_line (number refusal) offset) }
    ensures within { result ≤ length text.old }
{
    paste_line(text, 0, b"no", &[refusal.number() as u64, offset as u64])
}

// The last line of a sitting.
pub(crate) fn last_line(
    ending: Ending,
    packets: u64,
    volume: u64,
) -> ArrayVec<u8, LONGEST_LAST_LINE>
    requires packets { packets ≤ most_tape }
    requires volume { volume ≤ packets * most_weight_written }
    ensures line { result.items ≡ last_line ending packets volume }
    ensures short { length result.items ≤ longest_last_line }
{
    let word: &[u8] = match ending {
        Ending::Closed => b"closed",
        Ending::Broken => b"broken",
    };
    let mut bytes = [0; LONGEST_LAST_LINE];
    let end = paste_line(&mut bytes, 0, word, &[packets, volume]);
    let mut line = ArrayVec::from(bytes);
    line.truncate(end);
    line
}

// Writes a line, and then the lines of flows, to the front of the text, and answers how many bytes.
fn print_list(text: &mut [u8], word: &[u8], numbers: &[u64], flows: &[Record]) -> usize
    requires { length (line word.now numbers.now) + longest_flow_line * length flows.now ≤ length text.old }
    ensures text { text.new ≡ over (line word.now numbers.now ++ flow_lines flows.now) text.old }
    ensures bytes { result ≡ length (line word.now numbers.now ++ flow_lines flows.now) }
{
    let end = paste_line(text, 0, word, numbers);
    paste_flows(text, end, flows)
}

// Writes the lines of flows at a place of the text, and answers where they end.
fn paste_flows(text: &mut [u8], at: usize, flows: &[Record]) -> usize
    requires { at + longest_flow_line * length flows.now ≤ length text.old }
    ensures text { text.new ≡ pasted text.old at (flow_lines flows.now) }
    ensures end { result ≡ at + length (flow_lines flows.now) }
    ensures short { length (flow_lines flows.now) ≤ longest_flow_line * length flows.now }
{
    let mut end = at;
    for flow in flows {
        end = paste_flow(text, end, *flow);
    }
    end
}

// Writes the line of a flow at a place of the text, and answers where it ends.
#[tactic(auto, using(crate::proofs::Lengths::line_lengths))]
fn paste_flow(text: &mut [u8], at: usize, flow: Record) -> usize
    requires { at + longest_flow_line ≤ length text.old }
    ensures text { text.new ≡ pasted text.old at (flow_line flow) }
    ensures end { result ≡ at + length (flow_line flow) }
    ensures short { length (flow_line flow) ≤ longest_flow_line }
{
    paste_line(
        text,
        at,
        b"flow",
        &[flow.code.high, flow.code.low, flow.estimate],
    )
}

// Writes a line at a place of the text, and answers where it ends.
fn paste_line(text: &mut [u8], at: usize, word: &[u8], numbers: &[u64]) -> usize
    requires { at + length (line word.now numbers.now) ≤ length text.old }
    ensures text { text.new ≡ pasted text.old at (line word.now numbers.now) }
    ensures end { result ≡ at + length (line word.now numbers.now) }
{
    let mut end = paste(text, at, word);
    for number in numbers {
        end = paste(text, end, b" ");
        end = paste(text, end, Buffer::new().format(*number).as_bytes());
    }
    paste(text, end, b"\n")
}

// Copies bytes to a place of the text, and answers where they end.
fn paste(text: &mut [u8], at: usize, bytes: &[u8]) -> usize
    requires { at + length bytes.now ≤ length text.old }
    ensures text { text.new ≡ pasted text.old at bytes.now }
    ensures end { result ≡ at + length bytes.now }
{
    let end = at + bytes.len();
    text[at..end].copy_from_slice(bytes);
    end
}
