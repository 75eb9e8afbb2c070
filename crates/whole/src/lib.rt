// The whole state: its start, and whether it is well formed.
#![tactic(auto)]

mod starts;
mod tallies;

pub use starts::start;
pub use tallies::well_formed;
