// A run of events over a state, in place. The face is `run`: it takes every state and lists of every length.
#![tactic(auto)]

mod runs;
mod steps;
mod turns;

pub use runs::run;
