// Whole lines of a trace and their answers: the start line, then events. What is kept between lines.
#![tactic(auto)]

mod advancing;
mod events;
mod kept;
mod starting;

pub use advancing::advance;
pub use kept::{Advanced, Kept};
pub use starting::unstarted;
