// The lines of a log behind its heading: packets, and calls by name.
ghost use Rattle.std.specs.Prelude.{Some};
ghost use Rattle.logs.specs.Lines.{FormRead, Ends, EstimateRead, PacketRead, CallRead, LineRead};
ghost use Rattle.logs.specs.Failures.{reason};

use crate::written::WrittenKey;
use inputs::failure::Failure;
use meter::day::{Areas, Call};
use std::error::Error;
use std::fmt;
use text::{is_blank, next_word, small_number};

// Why a line cannot be read.
#[derive(Debug, Clone, Copy)]
pub enum Unread {
    Heading,
    Weight,
    More,
}

// The reason in words.
impl fmt::Display for Unread {
    ghost output = { λ e. Some (reason e) };

    fn fmt<W: fmt::Write>(&self, f: &mut fmt::Formatter<W>) -> fmt::Result {
        f.write_str(match self {
            Unread::Heading =>
                "a heading is a kind of key, a kind of counter, six whole numbers and no more",
            Unread::Weight => "a weight is a whole number behind the key",
            Unread::More => "there is more on the line than it takes",
        })
    }
}

impl Error for Unread {}

// What a line asks for, by its first word.
#[derive(Clone, Copy)]
enum Form {
    List,
    Restart,
    Estimate,
    Packet,
}

impl Form {
    // The form of a line with this first word. A word that is no call's name is a key, rightly written or not.
    fn of(word: &[u8]) -> Form
        ensures { FormRead word.now result }
    {
        if word == b"list".as_slice() {
            Form::List
        } else if word == b"restart".as_slice() {
            Form::Restart
        } else if word == b"estimate".as_slice() {
            Form::Estimate
        } else {
            Form::Packet
        }
    }
}

// Whether the line ends here.
fn end_line(rest: &[u8]) -> Result<(), Failure<Unread>>
    ensures { Ends rest.now result }
{
    if !is_blank(rest) {
        return Err(Failure::Unread(Unread::More));
    }
    Ok(())
}

// The call of an estimate line, behind its first word.
fn read_estimate<K: WrittenKey>(rest: &[u8]) -> Result<Call<K>, Failure<Unread>>
    ensures { EstimateRead (λ k. K.text (K.coded k)) rest.now result }
{
    let (word, rest) = next_word(rest);
    let key = K::of_word(word)?;
    end_line(rest)?;
    Ok(Call::Estimate(key))
}

// The call of a packet line: a key and a weight.
fn read_packet<K: WrittenKey>(line: &[u8]) -> Result<Call<K>, Failure<Unread>>
    ensures { PacketRead (λ k. K.text (K.coded k)) line.now result }
{
    let (word, rest) = next_word(line);
    let key = K::of_word(word)?;
    let (word, rest) = next_word(rest);
    let weight = small_number(word).ok_or(Failure::Unread(Unread::Weight))?;
    end_line(rest)?;
    Ok(Call::Packet(key, weight))
}

// The call of a line that is not blank. Its lists are at the level of the log.
fn read_call<K: WrittenKey>(line: &[u8], level: u64) -> Result<Call<K>, Failure<Unread>>
    ensures { CallRead (λ k. K.text (K.coded k)) level line.now result }
{
    let (word, rest) = next_word(line);
    match Form::of(word) {
        Form::List => {
            end_line(rest)?;
            Ok(Call::List(level, Areas::ample()))
        }
        Form::Restart => {
            end_line(rest)?;
            Ok(Call::Restart)
        }
        Form::Estimate => read_estimate(rest),
        Form::Packet => read_packet(line),
    }
}

// What a line asks for, or why it asks for nothing. None where it is blank.
pub fn read_line<K: WrittenKey>(line: &[u8], level: u64) -> Option<Result<Call<K>, Failure<Unread>>>
    ensures { LineRead (λ k. K.text (K.coded k)) level line.now result }
{
    if is_blank(line) {
        return None;
    }
    Some(read_call(line, level))
}
