// Lines of text are read as numbers. No input or output here. Bytes and a place in them stand as two: a caller gives any place, and is
// told of places in the same bytes; a part `s[from..]` would ask more of it.
#![tactic(auto)]

mod chunks;
mod nines;
mod numbers;
mod reading;

pub use chunks::{Parsed, parse};
pub use nines::{Nine, take_nine};
pub use reading::{Taken, take};
