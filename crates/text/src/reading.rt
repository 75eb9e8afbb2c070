// One line of numbers.
ghost use Rattle.std.specs.Prelude.{◌+◌, ◌≤◌, ◌≡◌, length, drop};
ghost use Rattle.text.specs.Lines.{passed};
ghost use Rattle.text.specs.Reading.{unread, taken_at};
ghost use Rattle.text.specs.Parts.{plain_line, words_to, finished};

use crate::numbers::{field, one_digit, short};

// A line that was read: how many numbers it has, 1 to 8, those numbers and then zeros; not readable: all zero.
// And the place of the next line. The count stands beside eight words since a line has any number of them and there is
// no heap; the definitions of the whole program, `taken_at` first, are stated over them.
#[derive(Clone, Copy)]
pub struct Taken {
    pub count: usize,
    pub words: [u32; 8],
    pub next: usize,
}

// The place of the next line, seen from a place of a line: past its line feed, or the end of input.
pub(crate) fn next_line(s: &[u8], from: usize) -> usize
    ensures { result ≡ from + passed (drop from s.now) }
{
    let Some(rest) = s.get(from..) else {
        return from;
    };
    match rest.iter().position(|b| *b == 10) {
        Some(feed) => from + feed + 1,
        None => s.len(),
    }
}

// A line that is not readable, seen at a place.
fn skip(s: &[u8], from: usize) -> Taken
    ensures { result ≡ unread (from + passed (drop from s.now)) }
{
    Taken {
        count: 0,
        words: [0u32; 8],
        next: next_line(s, from),
    }
}

// A line whose last number ends at a place.
fn finish(s: &[u8], end: usize, count: usize, words: [u32; 8]) -> Taken
    ensures { result ≡ finished s.now end count words }
{
    if s.len() <= end {
        return Taken {
            count,
            words,
            next: end,
        };
    }
    if s[end] == 10 {
        return Taken {
            count,
            words,
            next: end + 1,
        };
    }
    skip(s, end)
}

// Whether the line at a place is plain: eight fields of one digit each. With no early exit the 16 bytes are compared at once.
fn is_plain(s: &[u8], from: usize) -> bool
    requires { from + 16 ≤ length s.now }
    ensures { result ≡ plain_line s.now from }
{
    let mut fine = true;
    for k in 0..7 {
        fine = fine & one_digit(s, from + 2 * k, 9);
    }
    fine & one_digit(s, from + 14, 10)
}

// The numbers of a plain line: the last four bits of a digit are its value.
fn plain_words(s: &[u8], from: usize) -> [u32; 8]
    requires { from + 16 ≤ length s.now }
    ensures { result ≡ words_to 8 s.now from }
{
    std::array::from_fn(|k| (s[from + 2 * k] % 16) as u32)
}

// The line at a place, field by field. A line of up to eight numbers has at most 87 bytes, so its length needs no test.
fn take_fields(s: &[u8], from: usize) -> Taken
    requires { from ≤ length s.now }
    ensures { result ≡ taken_at s.now from }
{
    let mut words = [0u32; 8];
    let mut i: usize = from;
    // by number: the count is answered, and a field has any length
    for count in 0..8 {
        if let Some(d) = short(s, i) {
            words[count] = d;
            i += 2;
            continue;
        }
        let Some(f) = field(s, i) else {
            return skip(s, i);
        };
        words[count] = f.value;
        if f.after != 9 {
            return finish(s, f.end, count + 1, words);
        }
        i = f.end + 1;
    }
    // a tab ended the eighth field, so there is a ninth
    skip(s, i)
}

// The numbers of the line at a place, and the place of the next. Most lines are plain, so that is tested first.
pub fn take(s: &[u8], from: usize) -> Taken
    ensures { result ≡ taken_at s.now from }
{
    if s.len() < from {
        return skip(s, from);
    }
    if from + 16 <= s.len() && is_plain(s, from) {
        return Taken {
            count: 8,
            words: plain_words(s, from),
            next: from + 16,
        };
    }
    take_fields(s, from)
}
