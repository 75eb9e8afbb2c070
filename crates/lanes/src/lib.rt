// Two probes' files on their way through the program `join`: a part of each is read as records, and joined, printed and moved
// up in turns. No input or output here.
#![tactic(auto)]

mod filling;
mod loading;
mod printing;
mod turning;

pub use filling::LineRefusal;
pub use loading::{Loaded, load};
pub use turning::{Turned, turn};
