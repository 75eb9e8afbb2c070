// What one event does to the cell and the slot that it touches.
#![tactic(auto)]

pub mod changes;
