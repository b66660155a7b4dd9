// A place of a shared-deduction counter.
use flow::code::Code;

// A code with its count.
#[derive(Debug, Clone, Copy, PartialEq, Eq, Hash)]
pub struct Held {
    pub code: Code,
    pub count: u64,
}

// What a place holds. An empty place holds nothing.
pub type Place = Option<Held>;
