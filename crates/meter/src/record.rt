// What a list says of a flow.
use flow::code::Code;

// The code of a flow and its estimate.
#[derive(Debug, Clone, Copy, PartialEq, Eq, Hash, Default)]
pub struct Record {
    pub code: Code,
    pub estimate: u64,
}
