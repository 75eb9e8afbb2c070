// One turn of the program.
ghost use Rattle.std.specs.Prelude.{◌≡◌, take};
ghost use Rattle.std.proofs.lemmas.List.Edits.{sets};
ghost use Rattle.lines.specs.Chunks.{lent, lent_after, most_lines};
ghost use Rattle.trace.specs.Arrivals.{ready_in, held_after, turned};

use crate::holding::{hold, ready};
use lines::{Kept, advance};

// What is kept after a turn, how many bytes are held at the front, and how many were put for the lines answered.
#[derive(Clone, Copy)]
pub struct Turned {
    pub kept: Kept,
    pub held: usize,
    pub written: usize,
}

// Answers lines of the first bytes of `buf`, whole ones or, at the end of input, all, as many as the lists lent have room
// for, into `out`; then moves what is still to be answered to the front of `buf`. The lists are four parameters as in `advance`.
// `held` stands beside `buf`, since a caller may give any number: a part `buf[..held]` would ask more of it.
pub fn turn(
    kept: Kept,
    buf: &mut [u8],
    held: usize,
    last: bool,
    words: &mut [u32],
    marks: &mut [u8],
    answers: &mut [u32],
    out: &mut [u8],
) -> Turned
    ensures value { result ≡ turned kept (take held buf.old) last (lent words.old marks.old answers.old out.old) }
    ensures out_after { lent words.new marks.new answers.new out.new ≡ lent_after kept (ready_in last (take held buf.old)) (lent words.old marks.old answers.old out.old) }
    ensures buf_after { buf.new ≡ sets buf.old 0 (held_after (most_lines kept (lent words.old marks.old answers.old out.old)) last (take held buf.old)) }
{
    let to = held.min(buf.len());
    let answered = ready(&buf[..to], last);
    let a = advance(kept, answered, words, marks, answers, out);
    Turned {
        kept: a.kept,
        held: hold(buf, a.read, to),
        written: a.written,
    }
}
