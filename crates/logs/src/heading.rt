// The heading of a log: the kind of its keys, and the counter, the plan and the level that it asks for.
ghost use Rattle.logs.specs.Headings.{KeysRead, PlanRead, AsksRead, HeadingRead};

use frame::plan::Plan;
use inputs::kind::CounterKind;
use text::{is_blank, next_word, number, small_number};

// The kinds of key that a heading names.
#[derive(Clone, Copy)]
pub enum KeyKind {
    Prefix,
    Account,
}

impl KeyKind {
    // The kind of this name. A word that names none is no error: its line is no heading.
    fn named(word: &[u8]) -> Option<KeyKind>
        ensures { KeysRead word.now result }
    {
        if word == b"prefix".as_slice() {
            Some(KeyKind::Prefix)
        } else if word == b"account".as_slice() {
            Some(KeyKind::Account)
        } else {
            None
        }
    }
}

// The plan with which a line begins, and what follows it. Its numbers may be out of range: the meter refuses those.
fn plan_in_front(line: &[u8]) -> Option<(Plan, &[u8])>
    ensures { PlanRead line.now result }
{
    let (places, rest) = next_word(line);
    let (step, rest) = next_word(rest);
    let (most, rest) = next_word(rest);
    let (window, rest) = next_word(rest);
    let (blocks, rest) = next_word(rest);
    let plan = Plan {
        places: usize::try_from(small_number(places)?).unwrap_or(usize::MAX),
        step: small_number(step)?,
        most: small_number(most)?,
        window: small_number(window)?,
        blocks: small_number(blocks)?,
    };
    Some((plan, rest))
}

// What a heading asks for: a kind of counter, a plan, and the level of its lists.
#[derive(Clone, Copy)]
pub struct Asks {
    pub counter: CounterKind,
    pub plan: Plan,
    pub level: u64,
}

impl Asks {
    // What a line asks for that has all of it and no more.
    fn read(line: &[u8]) -> Option<Asks>
        ensures { AsksRead line.now result }
    {
        let (word, rest) = next_word(line);
        let counter = CounterKind::named(word)?;
        let (plan, rest) = plan_in_front(rest)?;
        let (word, rest) = next_word(rest);
        let level = number(word)?;
        if !is_blank(rest) {
            return None;
        }
        Some(Asks {
            counter,
            plan,
            level,
        })
    }
}

// A heading: the kind of keys, and what it asks for where that can be read.
#[derive(Clone, Copy)]
pub struct Heading {
    pub keys: KeyKind,
    pub asks: Option<Asks>,
}

impl Heading {
    // The heading of a log whose first line begins with no kind of key.
    pub const UNREAD: Heading = Heading {
        keys: KeyKind::Prefix,
        asks: None,
    };

    // The heading of a line, which begins with a kind of key.
    pub fn read(line: &[u8]) -> Option<Heading>
        ensures { HeadingRead line.now result }
    {
        let (word, rest) = next_word(line);
        let keys = KeyKind::named(word)?;
        Some(Heading {
            keys,
            asks: Asks::read(rest),
        })
    }
}
