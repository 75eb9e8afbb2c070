// What is empty: a want, a slot, a cell.
ghost use Rattle.std.specs.Prelude.{◌≡◌};
ghost use Rattle.rules.specs.States.{free_message, is_free};
ghost use Rattle.rules.specs.Cells.{is_nothing, zero_cell};

use crate::cells::{Cell, Want};
use crate::messages::{Message, MessageKind};
use crate::numbers::{Count, Serial};

impl Want {
    pub fn is_nothing(self) -> bool
        ensures { result ≡ is_nothing self }
    {
        matches!(self, Want::Nothing)
    }
}

impl MessageKind {
    pub fn is_free(self) -> bool
        ensures { result ≡ is_free self }
    {
        matches!(self, MessageKind::Free)
    }
}

// The empty cell.
pub fn empty_cell() -> Cell
    ensures { result ≡ zero_cell }
{
    Cell {
        tokens: Count(0),
        valid: false,
        owner: false,
        blocked: false,
        backup: false,
        want: Want::Nothing,
        word: 0,
        saved: 0,
    }
}

// What stands in a free slot.
pub fn free_message() -> Message
    ensures { result ≡ free_message }
{
    Message {
        kind: MessageKind::Free,
        line: 0,
        source: 0,
        destination: 0,
        serial: Serial(0),
        tokens: Count(0),
        owner: false,
        full: false,
        word: 0,
    }
}
