#![tactic(auto)]

// Demand 3 as theorems over the rules of `rules`: this crate has no code.
