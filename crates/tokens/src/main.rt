// The program `tokens`: lines of numbers from standard input or one file, an answer to each to standard output. What it is
// to print is `program` of lines/specs. It reads, lets `trace::turn` answer, and writes; that such turns print no more and
// no less, however the input arrives, is `arrives` in trace/proofs.
#![tactic(auto)]

ghost use Rattle.tokens.specs.Rooms.{Room};

use std::io::{Read, Write};
use streams::{Failure, MOST, open, read_more, send, tell, word};
use trace::Kept;

// What goes from turn to turn: what is kept, how many bytes are held at the front of `buf` (there is no heap, so it is no vector), and
// the lists that each turn is lent.
// `Room` keeps the turns from going on for nothing: where no whole line is held, there is room for a read.
#[derive(Drop)]
struct Turns {
    kept: Kept,
    held: usize,
    buf: [u8; 32768],
    words: [u32; 16384],
    marks: [u8; 2048],
    answers: [u32; 6144],
    out: [u8; 67584],
    ghost room: { Room buf held },
}

impl Turns {
    // Makes the lists once: to make them for each turn costs as much as an eighth of a line. With room for 2,048 lines a turn
    // answers all readable lines that the buffer holds, since none is shorter than 16 bytes.
    fn new() -> Turns {
        Turns {
            kept: trace::unstarted(),
            held: 0,
            buf: [0; 32768],
            words: [0; 16384],
            marks: [0; 2048],
            answers: [0; 6144],
            out: [0; 67584],
        }
    }

    // Reads, answers and writes: whether another turn is due. A read that fails leaves no whole line held, so that nothing is to
    // be answered after it.
    fn go<'a, R: Read, W: Write>(
        &mut self,
        input: &mut R,
        name: &'a [u8],
        output: &mut W,
    ) -> Result<bool, Failure<'a>> {
        let got = read_more(input, &mut self.buf, self.held).map_err(|why| Failure {
            what: name,
            why,
        })?;
        // a turn with no line would check the whole state for nothing
        if got.last && got.held == 0 {
            return Ok(false);
        }
        let t = trace::turn(
            self.kept,
            &mut self.buf,
            got.held,
            got.last,
            &mut self.words,
            &mut self.marks,
            &mut self.answers,
            &mut self.out,
        );
        self.kept = t.kept;
        self.held = t.held;
        send(output, &self.out, t.written).map_err(|why| Failure {
            what: b"standard output",
            why,
        })?;
        Ok(!(got.last && t.held == 0))
    }

    // Turn after turn to the end of input, or until a read or a write fails.
    // `Join::run` of `join` is alike; one loop for both would take a closure over all that a turn needs, and be no shorter.
    fn run<'a, R: Read, W: Write>(
        &mut self,
        input: &mut R,
        name: &'a [u8],
        output: &mut W,
    ) -> Result<(), Failure<'a>> {
        // a loop is known to end only where its turns are counted; no input lasts so many
        for _ in 0..u64::MAX {
            if !self.go(input, name, output)? {
                break;
            }
        }
        Ok(())
    }
}

// Answers the file of that name, or standard input.
fn answer<'a>(rt: &HostRuntime, name: Option<&'a [u8]>) -> Result<(), Failure<'a>> {
    let mut turns = Turns::new();
    match name {
        Some(name) => {
            let mut file = open(rt, name).map_err(|why| Failure { what: name, why })?;
            turns.run(&mut file, name, &mut rt.stdout())
        }
        None => turns.run(&mut rt.stdin(), b"standard input", &mut rt.stdout()),
    }
}

// Answers the file that the program is called with, or standard input.
fn answer_named<'a>(rt: &HostRuntime, path: &'a mut [u8]) -> Result<(), Failure<'a>> {
    let name = word(rt, 1, path).map_err(|why| Failure {
        what: b"the file's name",
        why,
    })?;
    answer(rt, name)
}

fn main(rt: HostRuntime) {
    let mut path = [0u8; MOST];
    // a second word is one too many
    let Ok(None) = word(&rt, 2, &mut path) else {
        let _ = rt.stderr().write_all(b"usage: tokens [FILE]\n");
        return;
    };
    if let Err(failure) = answer_named(&rt, &mut path) {
        tell(&mut rt.stderr(), b"tokens", failure.what, &failure.why);
    }
}
