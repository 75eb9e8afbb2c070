// Answers and other numbers as lines of text. No input or output here. A list and the place to put into stand as two: a caller gives any
// place, and a part `dst[at..]` would ask more of it. What does not fit counts 0 bytes: callers add the counts up.
#![tactic(auto)]

mod answers;
mod decimals;
mod listing;

pub use answers::{print, write};
pub use listing::line;
