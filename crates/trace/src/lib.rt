// One turn of the program `tokens`, and what is held between turns; what whole lines do is `lines`. No input or output here.
#![tactic(auto)]

mod holding;
mod turning;

pub use lines::{Kept, unstarted};
pub use turning::{Turned, turn};
