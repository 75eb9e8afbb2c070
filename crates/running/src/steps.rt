// Events over a state that is well formed, one after another and in place: each loads and stores only the parts that it touches.
ghost use Rattle.std.specs.Prelude.{◌≡◌, true, ◌<◌, ◌*◌};
ghost use Rattle.numbers.specs.Tags.{Tagged};
ghost use Rattle.rules.specs.WellFormed.{well_formed};
ghost use Rattle.rules.specs.Refusals.{slotted, sending, timeout};
ghost use Rattle.rules.specs.Effects.{step_of};
ghost use Rattle.rules.specs.Tools.{fill_to};
ghost use Rattle.running.specs.Steps.{touching, said, stepped, LineCopied, renewed_at};

use numbers::places::{place, row};
use numbers::refusals::{cell_refusal, send_refusal, slot_refusal};
use numbers::tags::{absent, lowest_free, tag, tags_of};
use parts::changes::{answer, arrived, reply, sent_cell, sent_message, touch};
use renewals::{next_serial, renewal_refusal, renewed, word_for};
use rules::cells::Cell;
use rules::choices::either;
use rules::events::{Answer, Event};
use rules::kinds::Kind;
use rules::messages::MessageKind;
use rules::numbers::Count;
use rules::refusals::Refusal;
use rules::states::State;
use std::array;

// The nine cells of a line.
fn line_cells(cells: &[Cell; 144], line: usize) -> [Cell; 9]
    requires { line < 16 }
    ensures { LineCopied cells.now line result }
{
    array::from_fn(|node| cells[line * 9 + node])
}

// The cells of a line after a recreation with this word for the chosen node.
fn renew_line(cells: &mut [Cell; 144], line: usize, chosen: usize, n: Count, word: u32)
    requires { line < 16 }
    ensures { cells.new ≡ fill_to 9 (line * 9) (renewed_at n.0 word chosen cells.old line) cells.old }
{
    // by number: of cells that are lent out one by one a proof knows the length alone
    for node in 0..9 {
        let k = line * 9 + node;
        cells[k] = renewed(node == chosen, n, word, cells[k]);
    }
}

// A state that is well formed, and the tag of each of its slots: a list beside the pool, so that a search reads 64 numbers and not 64
// messages of eight fields.
#[derive(Drop)]
pub(crate) struct Run {
    pub(crate) state: State,
    tags: [u32; 64],
    ghost well: { well_formed state ≡ true },
    ghost tagged: { Tagged tags state.pool },
}

impl Run {
    pub(crate) fn new(state: State) -> Run
        requires { well_formed state ≡ true }
        ensures { result.state ≡ state }
    {
        Run {
            state,
            tags: tags_of(state.pool),
        }
    }

    // The answer to one event.
    pub(crate) fn step(&mut self, e: Event) -> Answer
        ensures { step_of self.old.state e ≡ stepped self.new.state result }
    {
        self.try_step(e).unwrap_or_else(Answer::refused)
    }

    // One event, by its kind.
    fn try_step(&mut self, e: Event) -> Result<Answer, Refusal>
        ensures { step_of self.old.state e ≡ stepped self.new.state (said result) }
    {
        match Kind::try_from(e.kind)? {
            Kind::Deliver | Kind::Drop => self.deliver(e),
            Kind::Send => self.send(e),
            Kind::Read | Kind::Write | Kind::WantRead | Kind::WantWrite => self.touch(e),
            Kind::LostToken | Kind::LostData | Kind::LostDeletionAck => self.recreate(e),
        }
    }

    // A delivery or a drop.
    fn deliver(&mut self, e: Event) -> Result<Answer, Refusal>
        requires { slotted e.kind ≡ true }
        ensures { step_of self.old.state e ≡ stepped self.new.state (said result) }
    {
        slot_refusal(&self.tags, e)?;
        let slot = e.amount as usize;
        let m = self.state.pool[slot];
        let q = self.state.serials[row(m.line as u32)];
        let k = place(m.line as u32, m.destination as u32);
        let arrival = arrived(self.state.sizes.total, q, e, self.state.cells[k], m);
        self.state.cells[k] = arrival.cell;
        self.state.pool[slot] = reply(arrival.reply, q, m);
        self.tags[slot] = tag(arrival.reply, m.line, q);
        Ok(arrival.answer)
    }

    // A send.
    fn send(&mut self, e: Event) -> Result<Answer, Refusal>
        requires { sending e.kind ≡ true }
        ensures { step_of self.old.state e ≡ stepped self.new.state (said result) }
    {
        let k = place(e.line, e.node);
        let x = self.state.cells[k];
        let slot = send_refusal(self.state.sizes, e, x, lowest_free(&self.tags))?;
        let line = row(e.line);
        let q = self.state.serials[line];
        self.state.cells[k] = sent_cell(e, x);
        self.state.pool[slot] = sent_message(e, q, x);
        self.tags[slot] = tag(MessageKind::Tokens, line as u8, q);
        Ok(answer(0, 0, slot as u32))
    }

    // A read, a write or a want.
    fn touch(&mut self, e: Event) -> Result<Answer, Refusal>
        requires { touching e.kind ≡ true }
        ensures { step_of self.old.state e ≡ stepped self.new.state (said result) }
    {
        let k = place(e.line, e.node);
        let x = self.state.cells[k];
        cell_refusal(self.state.sizes, e, x)?;
        self.state.cells[k] = touch(e, x);
        let word = either(e.kind == Kind::Read as u32, x.word, 0);
        Ok(answer(0, word, 64))
    }

    // A timeout: the tokens of the line are recreated for the node.
    fn recreate(&mut self, e: Event) -> Result<Answer, Refusal>
        requires { timeout e.kind ≡ true }
        ensures { step_of self.old.state e ≡ stepped self.new.state (said result) }
    {
        let k = place(e.line, e.node);
        let x = self.state.cells[k];
        cell_refusal(self.state.sizes, e, x)?;
        let line = row(e.line);
        let nine = line_cells(&self.state.cells, line);
        let next = next_serial(self.state.serials[line]);
        // every message has the tag of a token message, so acknowledgments are found too
        let free = absent(&self.tags, tag(MessageKind::Tokens, line as u8, next));
        renewal_refusal(x, !free, nine)?;
        let total = self.state.sizes.total;
        let word = word_for(x, nine);
        renew_line(&mut self.state.cells, line, e.node as usize, total, word);
        self.state.serials[line] = next;
        Ok(answer(0, 0, 64))
    }
}
