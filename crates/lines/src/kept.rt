// What is kept between lines.
use rules::states::State;

// Whether the start line was read, and the state. No Option of a state: `advance` takes every two of these, and `program` and
// the theorems about it are stated over them.
#[derive(Clone, Copy)]
pub struct Kept {
    pub started: bool,
    pub state: State,
}

// What is kept after some lines, the bytes that they were, and the bytes that were put for them.
#[derive(Clone, Copy)]
pub struct Advanced {
    pub kept: Kept,
    pub read: usize,
    pub written: usize,
}
