// What a recreation does to the line that it touches.
#![tactic(auto)]

mod nines;

pub use nines::{next_serial, renewal_refusal, renewed, word_for};
