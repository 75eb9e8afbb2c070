// The rules of a well formed state, for each part of it by itself. A rule "a needs b" stands as `!a | b`, in the rule's own
// words; the tests are joined by `&`, which does not branch: nearly always all of them pass.
#![tactic(auto)]

mod cells;
mod messages;
mod sizes;

pub use cells::cell_fine;
pub use messages::message_fine;
pub use sizes::{serial_fine, sizes_fine};
