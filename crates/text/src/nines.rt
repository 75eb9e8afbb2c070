// One line of nine numbers: one, a tab, and a line of eight.
ghost use Rattle.std.specs.Prelude.{◌≡◌, ◌∷◌};
ghost use Rattle.text.specs.Nines.{nine_at};

use crate::numbers::field;
use crate::reading::{next_line, take};

// A line of nine numbers that was read: its numbers, if it is one, and the place of the next line.
#[derive(Clone, Copy)]
pub struct Nine {
    pub numbers: Option<[u32; 9]>,
    pub next: usize,
}

// A number before eight others.
fn nine_of(first: u32, others: [u32; 8]) -> [u32; 9]
    ensures { result ≡ first ∷ others }
{
    let mut numbers = [first; 9];
    numbers[1..9].copy_from_slice(&others);
    numbers
}

// The nine numbers of the line at a place, and the place of the next.
pub fn take_nine(s: &[u8], from: usize) -> Nine
    ensures { result ≡ nine_at s.now from }
{
    let Some(f) = field(s, from) else {
        return Nine {
            numbers: None,
            next: next_line(s, from),
        };
    };
    if f.after != 9 {
        return Nine {
            numbers: None,
            next: next_line(s, f.end),
        };
    }
    let t = take(s, f.end + 1);
    if t.count != 8 {
        return Nine {
            numbers: None,
            next: t.next,
        };
    }
    Nine {
        numbers: Some(nine_of(f.value, t.words)),
        next: t.next,
    }
}
