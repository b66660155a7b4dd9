// The lines of an input: a heading, then a packet on each line.
ghost use Rattle.std.specs.Prelude.{◌≡◌, Some, MatchOption};
ghost use Rattle.std.specs.Str.Parse.{digits_value};
ghost use Rattle.workings.specs.Lines.{IsName, PacketRead, SizesRead, HeadingRead, reason};

use flow::account::Account;
use flow::code::Code;
use flow::key::FlowKey;
use inputs::kind::CounterKind;
use std::error::Error;
use std::fmt;
use text::{is_blank, next_word, number, small_number};

// The most digits of a flow name.
const NAME_DIGITS: usize = Account::BYTES;

// The places and the step that a heading asks for. They may be out of range: the counter refuses those.
#[derive(Clone, Copy)]
pub struct Sizes {
    pub places: u32,
    pub step: u32,
}

impl Sizes {
    // The sizes of a line that has both and no more.
    fn read(line: &[u8]) -> Option<Sizes>
        ensures { SizesRead line.now result }
    {
        let (places, rest) = next_word(line);
        let (step, rest) = next_word(rest);
        if !is_blank(rest) {
            return None;
        }
        Some(Sizes {
            places: small_number(places)?,
            step: small_number(step)?,
        })
    }
}

// What a heading asks for: a kind, and the sizes where they can be read.
#[derive(Clone, Copy)]
pub struct Heading {
    pub kind: CounterKind,
    pub sizes: Option<Sizes>,
}

impl Heading {
    // What a first line asks for that begins with no kind.
    pub const UNREAD: Heading = Heading {
        kind: CounterKind::SemiOrdered,
        sizes: None,
    };

    // The heading of a line, which begins with a kind.
    pub fn read(line: &[u8]) -> Option<Heading>
        ensures { HeadingRead line.now result }
    {
        let (word, rest) = next_word(line);
        let kind = CounterKind::named(word)?;
        Some(Heading {
            kind,
            sizes: Sizes::read(rest),
        })
    }
}

// Why a line is no packet, or has no sizes behind its kind.
#[derive(Debug, Clone, Copy)]
pub enum Unread {
    Heading,
    Name,
    Weight,
    More,
}

// The reason in words.
impl fmt::Display for Unread {
    ghost output = { λ e. Some (reason e) };

    fn fmt<W: fmt::Write>(&self, f: &mut fmt::Formatter<W>) -> fmt::Result {
        f.write_str(match self {
            Unread::Heading => "a heading is a kind of counter, its places and its step",
            Unread::Name => "a flow name is one to ten digits",
            Unread::Weight => "a weight is a whole number behind the flow name",
            Unread::More => "a line is a flow name and a weight, and no more",
        })
    }
}

impl Error for Unread {}

// A packet as a line gives it.
#[derive(Clone, Copy)]
pub struct Packet {
    pub code: Code,
    pub weight: u32,
}

impl Packet {
    // The packet of a line: a flow name and a weight.
    pub fn read(line: &[u8]) -> Result<Packet, Unread>
        ensures { PacketRead line.now result }
    {
        let (name, rest) = next_word(line);
        let (weight, rest) = next_word(rest);
        let account = named_account(name).ok_or(Unread::Name)?;
        let weight = small_number(weight).ok_or(Unread::Weight)?;
        if !is_blank(rest) {
            return Err(Unread::More);
        }
        Ok(Packet {
            code: account.code(),
            weight,
        })
    }
}

// The account that one to ten digits name.
fn named_account(word: &[u8]) -> Option<Account>
    ensures { MatchOption result (IsName word.now → ⊥) (λ a. IsName word.now × (a.number ≡ digits_value 10 word.now)) }
{
    if word.len() > NAME_DIGITS {
        return None;
    }
    Account::new(number(word)?).ok()
}
