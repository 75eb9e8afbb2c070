// One file on its way.
use crate::telling::Stop;
use lanes::LineRefusal;
use std::io::Read;
use streams::{Failure, read_more};

// The file and its name, the bytes that are held, the words that are to be joined, the last time, how many lines were read, and
// how the file ends, once that is known: with its last line, or before a line that is refused. A part of a file is at most
// 1,024 records. There is no heap, so `held` and `count` stand beside their lists.
#[derive(Drop)]
pub(crate) struct Lane<'a, R> {
    input: R,
    name: &'a [u8],
    buf: [u8; 32768],
    held: usize,
    pub(crate) words: [u32; 9216],
    pub(crate) count: usize,
    time: u32,
    lines: u64,
    end: Option<Result<(), LineRefusal>>,
}

impl<'a, R: Read> Lane<'a, R> {
    // Before the first line.
    pub(crate) fn new(input: R, name: &'a [u8]) -> Self {
        Lane {
            input,
            name,
            buf: [0; 32768],
            held: 0,
            words: [0; 9216],
            count: 0,
            time: 0,
            lines: 0,
            end: None,
        }
    }

    // Reads once where no whole line is held, and loads what can be read.
    fn load(&mut self) -> Result<(), Failure<'a>> {
        let name = self.name;
        let got = read_more(&mut self.input, &mut self.buf, self.held).map_err(|why| Failure {
            what: name,
            why,
        })?;
        let l = lanes::load(
            self.time,
            &mut self.buf,
            got.held,
            got.last,
            &mut self.words,
        );
        self.held = l.held;
        self.count = l.count;
        self.time = l.time;
        // no file has as many lines as a u64 holds
        self.lines = self.lines.saturating_add((l.count / 9) as u64);
        self.end = match l.refused {
            Some(why) => Some(Err(why)),
            None if got.last && l.held == 0 => Some(Ok(())),
            None => None,
        };
        Ok(())
    }

    // Loads until there are words to be joined, or the file is at its end. The join stops where a read fails, and where the next
    // line is refused.
    pub(crate) fn refill(&mut self) -> Result<(), Stop<'a>> {
        // a loop is known to end only where its turns are counted; no file lasts so many
        for _ in 0..u64::MAX {
            if self.count != 0 {
                break;
            }
            match self.end {
                Some(Ok(())) => break,
                Some(Err(why)) => {
                    return Err(Stop::Refused {
                        name: self.name,
                        lines: self.lines,
                        why,
                    });
                }
                None => self.load()?,
            }
        }
        Ok(())
    }
}
