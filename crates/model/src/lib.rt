// The model of document 01: the functions that a user calls. They take every value that their types can hold.
#![tactic(auto)]

mod steps;

pub use steps::{batch, step};
pub use whole::{start, well_formed};
