// How a sitting ended.

// Whether a close was taken.
#[derive(Debug, Clone, Copy, PartialEq, Eq)]
pub enum Ending {
    Closed,
    Broken,
}
