// A chunk of whole lines, whatever was before it.
ghost use Rattle.std.specs.Prelude.{◌≡◌};
ghost use Rattle.lines.specs.Chunks.{lent, advanced, lent_after};

use crate::events::run;
use crate::kept::{Advanced, Kept};
use crate::starting::begin;

// Answers lines of `s`, as many as the lists lent have room for, into `out`. The first line of an input goes alone. The lists are four
// parameters and no struct: of a struct each contract would say too that it holds the same four, and `run` would lend out each again.
pub fn advance(
    kept: Kept,
    s: &[u8],
    words: &mut [u32],
    marks: &mut [u8],
    answers: &mut [u32],
    out: &mut [u8],
) -> Advanced
    ensures value { result ≡ advanced kept s.now (lent words.old marks.old answers.old out.old) }
    ensures out_after { lent words.new marks.new answers.new out.new ≡ lent_after kept s.now (lent words.old marks.old answers.old out.old) }
{
    if kept.started {
        return run(kept.state, s, words, marks, answers, out);
    }
    begin(kept, s, out)
}
