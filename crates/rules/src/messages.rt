// What stands in one slot of the pool.
use crate::numbers::{Count, Serial};

// Free is the kind of an empty slot, which keeps its other fields: a step takes free slots that are not zero, and answers 1
// (`well_formed`). So a slot is no Option of a message.
#[derive(Clone, Copy, PartialEq, Eq)]
pub enum MessageKind {
    Free,
    Tokens,
    OwnershipAck,
    DeletionAck,
}

// `full` is the data mark; `word` stands beside it for the same reason.
#[derive(Clone, Copy, PartialEq, Eq)]
pub struct Message {
    pub kind: MessageKind,
    pub line: u8,
    pub source: u8,
    pub destination: u8,
    pub serial: Serial,
    pub tokens: Count,
    pub owner: bool,
    pub full: bool,
    pub word: u32,
}
