// The line of a semi-ordered counter, and the steps of an add to it.
ghost use Rattle.std.specs.Prelude.{◌≡◌, ◌<◌, ◌≤◌, true, false, if◌then◌else◌, ◌==◌, List, [], ◌∷◌, ◌++◌, insert, length, nat_le, nat_lt, MatchOption, slice_index_or};
ghost use Rattle.std.specs.List.{prefix_len};
ghost use Rattle.semi.specs.Line.{holds, placed, between, AtLeast, Rising, added, passes, first_group, rest, total, entering, start, orderly, blank};
ghost use Rattle.semi.specs.declared.entry.Entry.{Entry as Item};
ghost use Rattle.flow.specs.Limits.{most_places, most_step, most_weight, most_bound};

use crate::entry::Entry;
use arrayvec::ArrayVec;
use flow::code::Code;
use flow::limits::MOST_PLACES;
use flow::sizes::Sizes;

// Entries in the order of their groups, lowest first, with the number of places for them and the step that they count by.
// `Sizes` cannot carry the bound of the step, since it is made with any greatest step.
#[derive(Drop)]
pub(crate) struct Line {
    sizes: Sizes,
    entries: ArrayVec<Entry, MOST_PLACES>,
    ghost fine: { sizes.step ≤ most_step },
    ghost few: { length entries.items ≤ sizes.places },
    ghost order: { orderly sizes.step entries.items ≡ true },
}

impl Line {
    // An empty line with one place and step 1.
    pub(crate) fn smallest() -> Line
        ensures places { result.sizes.places ≡ 1 }
        ensures step { result.sizes.step ≡ 1 }
        ensures entries { result.entries.items ≡ [] }
    {
        Line {
            sizes: Sizes { places: 1, step: 1 },
            entries: ArrayVec::new(),
        }
    }

    // Empties the line, with these sizes.
    pub(crate) fn reset(&mut self, sizes: Sizes)
        requires { sizes.step ≤ most_step }
        ensures sizes { self.new.sizes ≡ sizes }
        ensures entries { self.new.entries.items ≡ [] }
    {
        self.sizes = sizes;
        self.entries.clear();
    }

    // The sizes of the line.
    pub(crate) fn sizes(&self) -> Sizes
        ensures { result ≡ self.now.sizes }
    {
        self.sizes
    }

    // The entries, lowest group first.
    pub(crate) fn entries(&self) -> &[Entry]
        ensures { result.now ≡ self.now.entries.items }
    {
        self.entries.as_slice()
    }

    // The place of the entry with this code. (`position` made an add an eighth slower.)
    fn find(&self, code: Code) -> Option<usize>
        ensures { MatchOption result (holds code self.now.entries.items ≡ false) (λ i. (i < length self.now.entries.items) × ((slice_index_or self.now.entries.items i blank).code ≡ code)) }
    {
        for (i, entry) in self.entries().iter().enumerate() {
            if entry.code == code {
                return Some(i);
            }
        }
        None
    }

    // Whether there is an entry of the code.
    pub(crate) fn holds(&self, code: Code) -> bool
        ensures { result ≡ holds code self.now.entries.items }
    {
        self.find(code).is_some()
    }

    // What an absent code counts from.
    fn entering(&self, code: Code) -> Entry
        ensures { result ≡ entering self.now.sizes.places self.now.sizes.step self.now.entries.items code }
    {
        if self.entries.len() < self.sizes.places {
            return Entry {
                code,
                group: 0,
                remainder: 0,
            };
        }
        Entry {
            code,
            group: self.first_group(),
            remainder: self.sizes.step - 1,
        }
    }

    // The group of the first entry.
    fn first_group(&self) -> u64
        ensures { result ≡ first_group self.now.entries.items }
    {
        self.entries.first().map_or(0, |e| e.group)
    }

    // What a code counts from.
    pub(crate) fn start(&self, code: Code) -> Entry
        ensures { result ≡ start self.now.sizes.places self.now.sizes.step self.now.entries.items code }
    {
        match self.find(code) {
            Some(at) => self.entries[at],
            None => self.entering(code),
        }
    }

    // Adds a packet to what the code counts from, and puts the new entry in its place. Answers the passes.
    // Code and weight come as the counter's `add` has them.
    pub(crate) fn add(&mut self, code: Code, weight: u32) -> usize
        requires light { weight ≤ most_weight }
        requires fits { total self.old.sizes.step self.old.entries.items ≤ most_bound }
        ensures sizes { self.new.sizes ≡ self.old.sizes }
        ensures entries { self.new.entries.items ≡ added self.old.sizes.places self.old.sizes.step self.old.entries.items code weight }
        ensures passes { result ≡ passes self.old.sizes.places self.old.sizes.step self.old.entries.items code weight }
    {
        match self.find(code) {
            Some(at) => {
                let new = self.entries[at].raised(self.sizes.step, weight);
                regroup(&mut self.entries[at..], new)
            }
            None => {
                let start = self.entering(code);
                let new = start.raised(self.sizes.step, weight);
                seat(&mut self.entries, self.sizes.places, new)
            }
        }
    }
}

// Puts a further entry on the line, in exchange for the first one where so many places are taken. Answers the passes.
fn seat(entries: &mut ArrayVec<Entry, MOST_PLACES>, places: usize, new: Entry) -> usize
    requires places { (0 < places) × (places ≤ most_places) }
    requires order { Rising entries.old.items }
    ensures items { entries.new.items ≡ placed new (if nat_lt (length entries.old.items) places then entries.old.items else rest entries.old.items) }
    ensures passes { result ≡ (if nat_lt (length entries.old.items) places then between 0 new.group entries.old.items else between (first_group entries.old.items) new.group (rest entries.old.items)) }
{
    if entries.len() < places {
        enter(entries, new)
    } else {
        settle(entries, new)
    }
}

// Puts a further entry on the line, behind each one whose group is not above its own.
// Answers how many different groups between 0 and its own it passes. (`insert` moves by `rotate_left`: see `settle`.)
fn enter(entries: &mut ArrayVec<Entry, MOST_PLACES>, new: Entry) -> usize
    requires room { length entries.old.items < most_places }
    requires order { Rising entries.old.items }
    ensures items { entries.new.items ≡ placed new entries.old.items }
    ensures passes { result ≡ between 0 new.group entries.old.items }
{
    let way = climb(entries.as_slice(), 0, new.group);
    entries.push(new);
    wedge(entries, way.entries, new);
    way.passes
}

// Puts `new` at a place. The entries from there on move up by one, over the last.
fn wedge(line: &mut [Entry], at: usize, new: Entry)
    requires { at < length line.old }
    ensures { (front : List Item) (last : Item) → line.old ≡ front ++ last ∷ [] → line.new ≡ insert front at new }
{
    let last = line.len() - 1;
    line.copy_within(at..last, at + 1);
    line[at] = new;
}

// Puts `new` in the place of the first entry, where it stays if its group does, and else settles.
fn regroup(line: &mut [Entry], new: Entry) -> usize
    requires some { 0 < length line.old }
    requires order { Rising line.old }
    ensures line { line.new ≡ (if new.group == first_group line.old then new ∷ rest line.old else placed new (rest line.old)) }
    ensures passes { result ≡ between (first_group line.old) new.group (rest line.old) }
{
    if new.group == line[0].group {
        line[0] = new;
        return 0;
    }
    settle(line, new)
}

// Puts `new` in the place of the first entry, and moves it behind each later one whose group is not above its own.
// Answers how many different groups between the two it passes. (One `memmove`: `rotate_left` costs more than a short way.)
fn settle(line: &mut [Entry], new: Entry) -> usize
    requires some { 0 < length line.old }
    requires order { Rising line.old }
    ensures line { line.new ≡ placed new (rest line.old) }
    ensures passes { result ≡ between (first_group line.old) new.group (rest line.old) }
{
    let way = climb(&line[1..], line[0].group, new.group);
    line.copy_within(1..way.entries + 1, 0);
    line[way.entries] = new;
    way.passes
}

// How far an entry goes up a line: behind so many entries, past so many different groups.
#[derive(Debug, Clone, Copy, PartialEq, Eq)]
struct Way {
    entries: usize,
    passes: usize,
}

// What an entry climbs that goes from one group to another, with these entries behind it.
// One walk for both numbers: a chain for each would walk the entries twice, and whether a group is a further one depends on the group before it.
fn climb(later: &[Entry], from: u64, to: u64) -> Way
    requires { (Rising later.now) × (AtLeast from later.now) }
    ensures within { result.entries ≤ length later.now }
    ensures entries { result.entries ≡ prefix_len (λ e. nat_le e.group to) later.now }
    ensures passes { result.passes ≡ between from to later.now }
{
    let mut last = from;
    let mut passes = 0;
    for (entries, entry) in later.iter().enumerate() {
        if entry.group > to {
            return Way { entries, passes };
        }
        if last < entry.group && entry.group < to {
            passes += 1;
            last = entry.group;
        }
    }
    Way {
        entries: later.len(),
        passes,
    }
}
