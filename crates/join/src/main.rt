// The program `join`: two files of probe records, printed by time. What it is to print and to tell is `printed` and `told` of
// lanes/specs. It reads, lets `lanes` load and join a part of each file, and writes; that such turns print no more and no
// less, however the files arrive, is `arrives` in lanes/proofs.
#![tactic(auto)]

mod lane;
mod telling;

use lane::Lane;
use std::io::{Read, Write};
use streams::{Failure, MOST, open, send, word};
use telling::Stop;

// Both files, and the lists that each turn is lent. They are made once.
#[derive(Drop)]
struct Join<'a, R> {
    first: Lane<'a, R>,
    second: Lane<'a, R>,
    third: [u32; 18432],
    out: [u8; 202752],
}

impl<'a, R: Read> Join<'a, R> {
    // Loads what is missing of both files, and prints what can be joined: whether another turn is due.
    fn go<W: Write>(&mut self, output: &mut W) -> Result<bool, Stop<'a>> {
        let Join {
            first,
            second,
            third,
            out,
        } = self;
        first.refill()?;
        second.refill()?;
        let (n, m) = (first.count, second.count);
        if n == 0 && m == 0 {
            return Ok(false);
        }
        let t = lanes::turn(&mut first.words, n, &mut second.words, m, third, out);
        first.count = t.first;
        second.count = t.second;
        send(output, out, t.written).map_err(|why| Failure {
            what: b"standard output",
            why,
        })?;
        // the lists have room for both parts, and no time in them falls: it is not refused (`never_refused` in lanes/proofs/Links)
        Ok(t.refused.is_none())
    }

    // Turn after turn to the end of both files, or until a line is refused, or a read or a write fails.
    // `Turns::run` of `tokens` is alike; one loop for both would take a closure over all that a turn needs, and be no shorter.
    fn run<W: Write>(&mut self, output: &mut W) -> Result<(), Stop<'a>> {
        // a loop is known to end only where its turns are counted; no file lasts so many
        for _ in 0..u64::MAX {
            if !self.go(output)? {
                break;
            }
        }
        Ok(())
    }
}

// Joins the files of these names.
fn join_files<'a>(rt: &HostRuntime, name: &'a [u8], other_name: &'a [u8]) -> Result<(), Stop<'a>> {
    let input = open(rt, name).map_err(|why| Failure { what: name, why })?;
    let other = open(rt, other_name).map_err(|why| Failure {
        what: other_name,
        why,
    })?;
    let mut join = Join {
        first: Lane::new(input, name),
        second: Lane::new(other, other_name),
        third: [0; 18432],
        out: [0; 202752],
    };
    join.run(&mut rt.stdout())
}

// Joins the files that the program is called with; they are two.
fn join_called<'a>(
    rt: &HostRuntime,
    path: &'a mut [u8],
    other_path: &'a mut [u8],
) -> Result<(), Stop<'a>> {
    let failed = |what, why| Err(Stop::Failed(Failure { what, why }));
    match (
        word(rt, 1, path),
        word(rt, 2, other_path),
        word(rt, 3, &mut []),
    ) {
        (Ok(Some(name)), Ok(Some(other_name)), Ok(None)) => join_files(rt, name, other_name),
        (Err(why), Ok(Some(_)) | Err(_), Ok(None)) => failed(b"the first file's name", why),
        (_, Err(why), Ok(None)) => failed(b"the second file's name", why),
        _ => Err(Stop::Usage),
    }
}

fn main(rt: HostRuntime) {
    let mut path = [0u8; MOST];
    let mut other_path = [0u8; MOST];
    if let Err(stop) = join_called(&rt, &mut path, &mut other_path) {
        stop.tell(&mut rt.stderr());
    }
}
