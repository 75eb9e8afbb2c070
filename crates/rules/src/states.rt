// The whole state.
use crate::cells::Cell;
use crate::messages::Message;
use crate::numbers::{Count, Serial};

// C caches, L lines, N tokens for each line.
#[derive(Clone, Copy)]
pub struct Sizes {
    pub caches: u8,
    pub lines: u8,
    pub total: Count,
}

// Cell line * 9 + node is the node's cell of the line; the memory is node `caches`.
#[derive(Clone, Copy)]
pub struct State {
    pub sizes: Sizes,
    pub serials: [Serial; 16],
    pub cells: [Cell; 144],
    pub pool: [Message; 64],
}
