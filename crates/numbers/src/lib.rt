// The numbers that an event has from the parts that it names, and what they are read from: what the slots hold beside the
// state, and where the parts of a state stand.
#![tactic(auto)]

pub mod places;
pub mod refusals;
pub mod tags;
