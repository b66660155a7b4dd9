// The code of a flow key.
// What a key means: two whole numbers below 2^64.
#[derive(Debug, Clone, Copy, PartialEq, Eq, Hash, Default)]
pub struct Code {
    pub high: u64,
    pub low: u64,
}
