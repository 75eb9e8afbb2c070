// Lines of a probe's file are read as records.
ghost use Rattle.std.specs.Prelude.{◌+◌, ◌/◌, ◌≤◌, ◌≡◌, length};
ghost use Rattle.std.proofs.lemmas.List.Edits.{sets};
ghost use Rattle.probes.specs.Records.{words_of};
ghost use Rattle.lanes.specs.Parts.{read_in};
ghost use Rattle.lanes.specs.Refusals.{number_of_line};
ghost use Rattle.lanes.specs.Steps.{accepted, filled};

use std::fmt;

// Why a line is refused. Each reason has the number that is told of it.
#[derive(Clone, Copy, PartialEq, Eq, Debug)]
pub enum LineRefusal {
    // it is not nine numbers
    Unreadable = 22,
    // its time is below the one before it
    TimeFalls = 24,
}

impl LineRefusal {
    // The number that is told of such a line.
    pub fn number(self) -> u32
        ensures { result ≡ number_of_line self }
    {
        self as u32
    }
}

impl fmt::Display for LineRefusal {
    fn fmt<W: fmt::Write>(&self, f: &mut fmt::Formatter<W>) -> fmt::Result {
        f.write_str(match self {
            LineRefusal::Unreadable => "line not readable",
            LineRefusal::TimeFalls => "a time that falls",
        })
    }
}

// How many words were put, the place of the first line that was not read, the last time, and why that line is refused.
#[derive(Clone, Copy)]
pub(crate) struct Filled {
    pub(crate) count: usize,
    pub(crate) next: usize,
    pub(crate) time: u32,
    pub(crate) refused: Option<LineRefusal>,
}

// The numbers of a line that comes after a time.
#[tactic(auto, unfolding(crate::specs::Steps::accepted))]
fn accept(numbers: Option<[u32; 9]>, last: u32) -> Result<[u32; 9], LineRefusal>
    ensures { result ≡ accepted numbers last }
{
    let record = numbers.ok_or(LineRefusal::Unreadable)?;
    if record[0] < last {
        return Err(LineRefusal::TimeFalls);
    }
    Ok(record)
}

// Puts nine words from place `at` on. Private, as `store` of `text` is for eight: a public one of both would test for room at each line.
fn store(dst: &mut [u32], at: usize, w: [u32; 9])
    requires { at + 9 ≤ length dst.old }
    ensures { dst.new ≡ sets dst.old at w }
{
    dst[at..at + 9].copy_from_slice(&w);
}

// Reads lines of `s` after a time as records, as many as there is room for, up to the first that is refused.
pub(crate) fn fill(time: u32, s: &[u8], words: &mut [u32]) -> Filled
    ensures value { result ≡ filled time s.now (length words.old / 9) }
    ensures words_after { words.new ≡ sets words.old 0 (words_of (read_in (length words.old / 9) s.now time).records) }
{
    let mut so_far = Filled {
        count: 0,
        next: 0,
        time,
        refused: None,
    };
    // by number: of a list that was lent out chunk by chunk a proof knows the length alone
    for j in 0..words.len() / 9 {
        if s.len() <= so_far.next {
            return so_far;
        }
        let line = text::take_nine(s, so_far.next);
        match accept(line.numbers, so_far.time) {
            Ok(record) => {
                store(words, 9 * j, record);
                so_far = Filled {
                    count: 9 * j + 9,
                    next: line.next,
                    time: record[0],
                    refused: None,
                };
            }
            Err(why) => {
                return Filled {
                    refused: Some(why),
                    ..so_far
                };
            }
        }
    }
    so_far
}
