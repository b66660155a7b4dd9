// What a command is answered.

// The reply to a command that was taken. A list has records.
#[derive(Debug, Clone, Copy, PartialEq, Eq)]
pub enum Reply<R> {
    Opened,
    Took(usize),
    Estimated(u64),
    Listed(R),
    Restarted,
    LevelSet(u64),
    Tried(u64, R),
    Closed,
}
