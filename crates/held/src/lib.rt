// What is held between two reads: the whole lines of it, and its move to the front. No input or output here.
#![tactic(auto)]

mod feeds;
mod moves;

pub use feeds::whole;
pub use moves::move_up;
