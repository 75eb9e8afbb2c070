// The types of the model, the methods of a cell, and the empty things; the rules are in specs/.
#![tactic(auto)]

pub mod cells;
pub mod choices;
pub mod empties;
pub mod events;
pub mod kinds;
pub mod messages;
mod moves;
pub mod numbers;
pub mod refusals;
pub mod states;
