// Many lines at once: events are read into words.
ghost use Rattle.std.specs.Prelude.{◌+◌, ◌≤◌, ◌<◌, ◌≡◌, length, set};
ghost use Rattle.std.proofs.lemmas.List.Edits.{sets};
ghost use Rattle.text.specs.Chunks.{Parses, room};
ghost use Rattle.text.specs.Parts.{event_words, event_mark};

use crate::reading::{Taken, take};

// How far a chunk was read: lines, words put, and the place of the next line. The definitions of the whole program are
// stated over these three numbers, `Parses` first.
#[derive(Clone, Copy)]
pub struct Parsed {
    pub lines: usize,
    pub words: usize,
    pub next: usize,
}

// Puts eight words from place `at` on. `copy_from_slice` asks whether the two overlap, which takes 9 instructions more a line.
fn store(dst: &mut [u32], at: usize, w: [u32; 8])
    requires { at + 8 ≤ length dst.old }
    ensures { dst.new ≡ sets dst.old at w }
{
    for k in 0..8 {
        dst[at + k] = w[k];
    }
}

// Puts what a line is: an event's words from place `at` on, and the line's mark. Answers how many words that is.
fn put_line(words: &mut [u32], at: usize, marks: &mut [u8], line: usize, t: Taken) -> usize
    requires { (at + 8 ≤ length words.old) × (line < length marks.old) }
    ensures value { (result ≡ length (event_words t.count t.words)) × (result ≤ 8) }
    ensures words_after { words.new ≡ sets words.old at (event_words t.count t.words) }
    ensures marks_after { marks.new ≡ set marks.old line (event_mark t.count) }
{
    if t.count == 8 {
        store(words, at, t.words);
        marks[line] = 1;
        return 8;
    }
    marks[line] = 0;
    0
}

// Reads at most `most` lines of `s`, as there is room for them: eight words for each event and a mark for each line.
// The marks are bytes, 1 for an event and else 0: a narrower type would ask more of who calls this and `print`.
pub fn parse(s: &[u8], most: usize, words: &mut [u32], marks: &mut [u8]) -> Parsed
    ensures { Parses s.now (room most words.old marks.old) words.old marks.old words.new marks.new result }
{
    let some = (words.len() / 8).min(marks.len());
    let k = most.min(some);
    let mut at: usize = 0;
    let mut next: usize = 0;
    // by number: a line has any length, and the marks are of a list that is lent
    for lines in 0..k {
        if s.len() <= next {
            return Parsed {
                lines,
                words: at,
                next,
            };
        }
        let t = take(s, next);
        at += put_line(words, at, marks, lines, t);
        next = t.next;
    }
    Parsed {
        lines: k,
        words: at,
        next,
    }
}
