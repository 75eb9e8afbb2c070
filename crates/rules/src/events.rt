// What goes into a step and a batch, and what comes back.
ghost use Rattle.std.specs.Prelude.{◌≡◌};
ghost use Rattle.rules.specs.Effects.{answer};
ghost use Rattle.rules.specs.Kinds.{number_of};

use crate::cells::Cell;
use crate::messages::MessageKind;
use crate::refusals::Refusal;
use crate::states::State;

// The eight words of an event record. `amount` is the amount of a send and the slot of a delivery or a drop;
// `owner` and `full` are the owner mark and the data mark. Kind and marks are numbers, not enums: a step takes every record, and answers
// 2 to one with no such kind or mark (`step`).
#[derive(Clone, Copy)]
pub struct Event {
    pub kind: u32,
    pub line: u32,
    pub node: u32,
    pub other: u32,
    pub amount: u32,
    pub owner: u32,
    pub full: u32,
    pub word: u32,
}

// Number, word and slot as they are given back (`step`, `batch`); the names of the numbers that the model gives are in `Refusal` (22 is
// the program's own, in `lines`).
#[derive(Clone, Copy)]
pub struct Answer {
    pub number: u32,
    pub word: u32,
    pub slot: u32,
}

impl Answer {
    // The answer to an event that is refused: the number of the reason, word 0, slot 64.
    pub fn refused(why: Refusal) -> Answer
        ensures { result ≡ answer (number_of why) 0 64 }
    {
        Answer {
            number: why.number(),
            word: 0,
            slot: 64,
        }
    }
}

// What a delivery leaves: the cell that the message is for, the kind of what then stands in the slot (free: nothing), the answer.
// The reply is a kind and no Option, as the rules say what then stands in the slot (`reply_of`).
#[derive(Clone, Copy)]
pub struct Arrival {
    pub cell: Cell,
    pub reply: MessageKind,
    pub answer: Answer,
}

#[derive(Clone, Copy)]
pub struct Stepped {
    pub state: State,
    pub answer: Answer,
}

// What a batch gives back: 0 or a number of `Refusal`, with the state on a refusal too. It is no Result, as `batch_of` of the rules and
// the theorems are stated over it.
#[derive(Clone, Copy)]
pub struct Batched {
    pub number: u32,
    pub state: State,
    pub count: usize,
}
