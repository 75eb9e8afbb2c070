// What an event leaves in the one cell and the one slot that it touches, and its answer.
ghost use Rattle.std.specs.Prelude.{◌≡◌, ◌+◌, ◌%◌, ◌<◌};
ghost use Rattle.parts.specs.Types.{Tokens as TokenMessage, OwnershipAck, DeletionAck};
ghost use Rattle.rules.specs.Cells.{fill, received};
ghost use Rattle.rules.specs.Tools.{when};
ghost use Rattle.rules.specs.Effects.{answer as answer_of, arrival as arrival_of, sent_message, sent_cell, discarded as discardedOf, arrive as arriveBy, reply_of};
ghost use Rattle.parts.specs.Changes.{wanted_by, touched_cell, cut, fits, arrive_of, lost as lostOf};

use rules::cells::{Cell, Want};
use rules::choices::either;
use rules::empties::free_message;
use rules::events::{Answer, Arrival, Event};
use rules::kinds::Kind;
use rules::messages::{Message, MessageKind};
use rules::numbers::{Count, Serial};

// Slot 64 is none: so answers are given back.
pub fn answer(number: u32, word: u32, slot: u32) -> Answer
    ensures { result ≡ answer_of number word slot }
{
    Answer { number, word, slot }
}

// The want after an event of the kind, which comes as its number: `touch` takes every event.
#[tactic(auto, unfolding(crate::specs::Changes::wanted_by))]
fn wanted(kind: u32, want: Want) -> Want
    ensures { result ≡ wanted_by kind want }
{
    match Kind::try_from(kind) {
        Ok(Kind::WantRead) => Want::Read,
        Ok(Kind::WantWrite) => Want::Write,
        _ => want,
    }
}

// The cell after a read, a write or a want that is accepted: only the word and the want are stored.
pub fn touch(e: Event, x: Cell) -> Cell
    ensures { result ≡ touched_cell e e.kind x }
{
    let word = either(e.kind == Kind::Write as u32, e.word, x.word);
    x.write(word).wish(wanted(e.kind, x.want))
}

// The low byte of a number.
fn low(x: u32) -> u8
    ensures { result ≡ x % 256 }
{
    (x % 256) as u8
}

// The message that a send puts into the pool, with the low bytes of its numbers.
pub fn sent_message(e: Event, q: Serial, x: Cell) -> Message
    ensures { result ≡ sent_message (cut e) q.0 x }
{
    let full = e.full == 1;
    Message {
        kind: MessageKind::Tokens,
        line: low(e.line),
        source: low(e.node),
        destination: low(e.other),
        serial: q,
        tokens: Count(low(e.amount)),
        owner: e.owner == 1,
        full,
        word: either(full, x.word, 0),
    }
}

// The sender's cell after a send.
#[tactic(auto, unfolding(rules::specs::Effects::sent_cell))]
pub fn sent_cell(e: Event, x: Cell) -> Cell
    ensures { result ≡ sent_cell (cut e) x }
{
    let amount = Count(low(e.amount));
    if e.owner == 1 {
        x.back_up().give(amount)
    } else {
        x.give(amount)
    }
}

// What a message that is discarded leaves: the cell as it was.
fn discarded(x: Cell) -> Arrival
    ensures { result ≡ discardedOf x }
{
    Arrival {
        cell: x,
        reply: MessageKind::Free,
        answer: answer(0, 0, 64),
    }
}

// What a message that is taken leaves: the cell, and the kind that then stands in the slot (free: no reply, as the rules have it).
fn taken(cell: Cell, reply: MessageKind, slot: u32) -> Arrival
    ensures { result ≡ arrival_of cell reply (answer_of 0 1 slot) }
{
    Arrival {
        cell,
        reply,
        answer: answer(0, 1, slot),
    }
}

// A message of the line's serial in a slot, and the cell that it is for, of a line of so many tokens; their counts fit a byte together.
#[derive(Clone, Copy)]
struct Landing {
    total: Count,
    slot: u32,
    cell: Cell,
    message: Message,
    ghost fits: { cell.tokens.0 + message.tokens.0 < 256 },
}

impl Landing {
    // The cell with what a token message brings.
    #[tactic(auto, unfolding(rules::specs::Cells::received, rules::specs::Cells::take_fitting))]
    fn received(self) -> Cell
        ensures { result ≡ received self.message self.cell }
    {
        let m = self.message;
        let mut cell = self.cell.take(m.tokens);
        if m.full {
            cell = cell.fill(m.word);
        }
        if m.owner { cell.block() } else { cell }
    }

    #[tactic(auto, unfolding(rules::specs::Effects::arrive))]
    fn tokens(self) -> Arrival
        ensures { result ≡ arriveBy self.total.0 self.slot self.cell self.message TokenMessage }
    {
        let cell = self.received().settle(self.total);
        if self.message.owner {
            taken(cell, MessageKind::OwnershipAck, self.slot)
        } else {
            taken(cell, MessageKind::Free, 64)
        }
    }

    // An ownership acknowledgment ends the backup, and is answered.
    #[tactic(auto, unfolding(rules::specs::Effects::arrive))]
    fn ownership_ack(self) -> Arrival
        ensures { result ≡ arriveBy self.total.0 self.slot self.cell self.message OwnershipAck }
    {
        if self.cell.backup {
            taken(self.cell.drop_backup(), MessageKind::DeletionAck, self.slot)
        } else {
            discarded(self.cell)
        }
    }

    // A backup deletion acknowledgment ends the block.
    #[tactic(auto, unfolding(rules::specs::Effects::arrive))]
    fn deletion_ack(self) -> Arrival
        ensures { result ≡ arriveBy self.total.0 self.slot self.cell self.message DeletionAck }
    {
        if self.cell.blocked {
            taken(self.cell.unblock(), MessageKind::Free, 64)
        } else {
            discarded(self.cell)
        }
    }

    // By the message's kind.
    #[tactic(auto, unfolding(rules::specs::Effects::arrive))]
    fn arrive(self) -> Arrival
        ensures { result ≡ arriveBy self.total.0 self.slot self.cell self.message self.message.kind }
    {
        match self.message.kind {
            MessageKind::Free => discarded(self.cell),
            MessageKind::Tokens => self.tokens(),
            MessageKind::OwnershipAck => self.ownership_ack(),
            MessageKind::DeletionAck => self.deletion_ack(),
        }
    }
}

#[tactic(auto, unfolding(crate::specs::Changes::fits))]
fn fits(x: Cell, m: Message) -> bool
    ensures { result ≡ fits x m }
{
    x.tokens.0.checked_add(m.tokens.0).is_some()
}

// A drop, or a message whose serial is not the line's, or one whose count does not fit. The kind comes as its number: `arrived` takes
// every event.
fn lost(kind: u32, q: Serial, x: Cell, m: Message) -> bool
    ensures { result ≡ lostOf kind q.0 x m }
{
    (kind == Kind::Drop as u32) | (m.serial != q) | !fits(x, m)
}

// A delivery or a drop of a slot that holds m, at the cell that m is for; q is the line's serial.
#[tactic(auto, unfolding(crate::specs::Changes::arrive_of, crate::specs::Changes::lost, crate::specs::Changes::fits))]
pub fn arrived(n: Count, q: Serial, e: Event, x: Cell, m: Message) -> Arrival
    ensures { result ≡ arrive_of n.0 q.0 e e.kind x m }
{
    if lost(e.kind, q, x, m) {
        return discarded(x);
    }
    let landing = Landing {
        total: n,
        slot: e.amount,
        cell: x,
        message: m,
    };
    landing.arrive()
}

// What then stands in the slot: nothing, or an acknowledgment of m.
#[tactic(auto, unfolding(rules::specs::Effects::reply_of))]
pub fn reply(kind: MessageKind, q: Serial, m: Message) -> Message
    ensures { result ≡ reply_of kind q.0 m }
{
    if kind.is_free() {
        free_message()
    } else {
        Message {
            kind,
            line: m.line,
            source: m.destination,
            destination: m.source,
            serial: q,
            ..free_message()
        }
    }
}
