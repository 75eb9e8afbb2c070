// Input.
ghost use Rattle.std.specs.Prelude.{◌<◌, ◌≡◌, true, length, IfOk};
ghost use Rattle.std.specs.Io.{ReadsAtMost};
ghost use Rattle.std.specs.Io.KnownBytes.{IsAtEnd};
ghost use Rattle.streams.specs.Reads.{Reads};

use std::io;
use std::io::{ErrorKind, Read};

// How many bytes are held now, and whether the input has ended.
#[derive(Clone, Copy)]
pub struct More {
    pub held: usize,
    pub last: bool,
}

// One read, tried again where a signal broke it off. With no room for a byte it would look like the end of input.
fn read_once<R: Read>(input: &mut R, part: &mut [u8]) -> io::Result<usize>
    requires { 0 < length part.old }
    ensures bound { ReadsAtMost result part.new }
    ensures end { IfOk result (λ n. n ≡ 0 → IsAtEnd (R.remaining input.new)) }
{
    for _ in 0..u64::MAX {
        match input.read(part) {
            Err(why) if why.kind() == ErrorKind::Interrupted => {}
            got => return got,
        }
    }
    Err(io::Error::from(ErrorKind::Interrupted))
}

// Reads more behind the bytes that are held, where they have no whole line: so all whole lines are used before a read can fail.
// The caller tells of a failure, with its own name; it may give any number for `held`.
pub fn read_more<R: Read>(input: &mut R, buf: &mut [u8], held: usize) -> io::Result<More>
    ensures bytes { Reads buf.old held buf.new result }
    ensures end { IfOk result (λ m. m.last ≡ true → IsAtEnd (R.remaining input.new)) }
{
    let held = held.min(buf.len());
    if held == buf.len() || held::whole(&buf[..held]) > 0 {
        return Ok(More { held, last: false });
    }
    let more = read_once(input, &mut buf[held..])?;
    Ok(More {
        held: held + more,
        last: more == 0,
    })
}
