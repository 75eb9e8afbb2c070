// Input, output and errors of the programs: what they do with bytes is in crates with no input or output. No contract can
// say what is read or written.
#![tactic(auto)]

mod calling;
mod opening;
mod reading;
mod telling;
mod writing;

pub use calling::{MOST, word};
pub use opening::open;
pub use reading::{More, read_more};
pub use telling::{Failure, tell};
pub use writing::send;
