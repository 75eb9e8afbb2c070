// Before the first line, and the first line.
ghost use Rattle.std.specs.Prelude.{false, ◌≡◌, []};
ghost use Rattle.lines.specs.Chunks.{lent, advanced, lent_after};
ghost use Rattle.lines.specs.Program.{nothing_kept};
ghost use Rattle.lines.specs.Parts.{start_fields};

use crate::kept::{Advanced, Kept};
use rules::events::{Answer, Stepped};
use text::Taken;

// The answer to a line that is not readable.
const UNREADABLE: Answer = Answer {
    number: 22,
    word: 0,
    slot: 64,
};

// What is kept before the first line.
pub fn unstarted() -> Kept
    ensures { result ≡ nothing_kept }
{
    Kept {
        started: false,
        state: model::start(0, 0, 0).state,
    }
}

// The start line with these numbers.
fn start_line(line: Taken) -> Stepped
    ensures { result ≡ start_fields line.count line.words }
{
    if line.count == 3 {
        return model::start(line.words[0], line.words[1], line.words[2]);
    }
    Stepped {
        state: unstarted().state,
        answer: UNREADABLE,
    }
}

// The first line of `s`, if there is one, and room for its answer: the other lists play no part.
pub(crate) fn begin(kept: Kept, s: &[u8], out: &mut [u8]) -> Advanced
    requires { kept.started ≡ false }
    ensures value { result ≡ advanced kept s.now (lent [] [] [] out.old) }
    ensures out_after { out.new ≡ (lent_after kept s.now (lent [] [] [] out.old)).out }
{
    if s.is_empty() || out.len() < 33 {
        return Advanced {
            kept,
            read: 0,
            written: 0,
        };
    }
    let line = text::take(s, 0);
    let started = start_line(line);
    let a = started.answer;
    let written = writing::write(out, 0, a.number, a.word, a.slot);
    Advanced {
        kept: Kept {
            started: true,
            state: started.state,
        },
        read: line.next,
        written,
    }
}
