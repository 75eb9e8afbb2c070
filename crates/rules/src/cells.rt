// What one node holds of one line.
use crate::numbers::Count;

// A want is no Option of an access, since the rules (`served`, `want_after`) and all theorems are stated over the three.
#[derive(Clone, Copy, PartialEq, Eq)]
pub enum Want {
    Nothing,
    Read,
    Write,
}

// `word` is the data word, `saved` the backup word. Each stands beside its mark, and is no Option of it: a step takes cells in which
// the two do not agree, and answers 1 (`well_formed`).
#[derive(Clone, Copy, PartialEq, Eq)]
pub struct Cell {
    pub tokens: Count,
    pub valid: bool,
    pub owner: bool,
    pub blocked: bool,
    pub backup: bool,
    pub want: Want,
    pub word: u32,
    pub saved: u32,
}
