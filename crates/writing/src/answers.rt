// Answers as text: one, and many at once.
ghost use Rattle.std.specs.Prelude.{◌+◌, ◌≤◌, ◌≡◌, length};
ghost use Rattle.std.proofs.lemmas.List.Edits.{sets};
ghost use Rattle.writing.specs.Writing.{answer_text, put_at, put_count, printed, printed_count};
ghost use Rattle.writing.specs.Parts.{answer_at, words_of};

use crate::decimals::{put_number, width};

// Puts the text of an answer where there is room for it, and answers the place after it: `print` has counted the room before.
fn place(dst: &mut [u8], at: usize, number: u32, word: u32, slot: u32) -> usize
    requires { at + length (answer_text number word slot) ≤ length dst.old }
    ensures value { result ≡ at + length (answer_text number word slot) }
    ensures dst_after { dst.new ≡ sets dst.old at (answer_text number word slot) }
{
    let p = put_number(dst, at, number, b'\t');
    let q = put_number(dst, p, word, b'\t');
    put_number(dst, q, slot, b'\n')
}

// Puts the text of an answer from place `at` on, and answers how many bytes it is; 0, and nothing is put, where it does not fit.
// The answer comes as its three numbers: this crate does not stand on `rules`, which has the struct.
pub fn write(dst: &mut [u8], at: usize, number: u32, word: u32, slot: u32) -> usize
    ensures value { result ≡ put_count dst.old at (answer_text number word slot) }
    ensures dst_after { dst.new ≡ put_at dst.old at (answer_text number word slot) }
{
    let count = width(number) + width(word) + width(slot) + 3;
    if dst.len().saturating_sub(at) < count {
        return 0;
    }
    place(dst, at, number, word, slot);
    count
}

// Puts the answer to a line: for an event the three words at place `a`, for another line 22, 0, 64. Answers the place after it.
fn put_answer(dst: &mut [u8], at: usize, mark: u8, answers: &[u32], a: usize) -> usize
    requires { (at + 33 ≤ length dst.old) × (a + 3 ≤ length answers.now) }
    ensures dst_after { dst.new ≡ sets dst.old at (answer_at mark answers.now a) }
    ensures value { (result ≡ at + length (answer_at mark answers.now a)) × (result ≤ at + 33) }
{
    if mark == 1 {
        return place(dst, at, answers[a], answers[a + 1], answers[a + 2]);
    }
    place(dst, at, 22, 0, 64)
}

// How many words the answer to a line with this mark has: three for an event, else none.
fn words_of(mark: u8) -> usize
    ensures { (result ≡ words_of mark) × (result ≤ 3) }
{
    if mark == 1 { 3 } else { 0 }
}

// Puts the answers to lines with these marks at the start of `dst`, and answers how many bytes that is; 0, and nothing is put, where
// there are not 33 bytes and three words for each line. `print` promises an answer for every mark, of which 1 is an event's and
// each other a line that is not readable: a narrower type would ask more of callers.
pub fn print(dst: &mut [u8], marks: &[u8], answers: &[u32]) -> usize
    ensures value { result ≡ printed_count dst.old marks.now answers.now }
    ensures dst_after { dst.new ≡ printed dst.old marks.now answers.now }
{
    let n = marks.len();
    if dst.len() / 33 < n {
        return 0;
    }
    if answers.len() / 3 < n {
        return 0;
    }
    // `a` and `at` go on by what a line has, none or three words, and so many bytes
    let mut a = 0;
    let mut at = 0;
    for &mark in marks {
        at = put_answer(dst, at, mark, answers, a);
        a += words_of(mark);
    }
    at
}
