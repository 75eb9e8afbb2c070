// Output.
ghost use Rattle.std.specs.Prelude.{is_ok};
ghost use Rattle.std.specs.Io.{WritesAtMost};
ghost use Rattle.streams.specs.Sends.{Sends};

use std::io;
use std::io::{ErrorKind, Write};

// One write, tried again where a signal broke it off: how many bytes it took.
fn write_once<W: Write>(to: &mut W, part: &[u8]) -> io::Result<usize>
    ensures { WritesAtMost result part.now }
{
    for _ in 0..u64::MAX {
        match to.write(part) {
            Err(why) if why.kind() == ErrorKind::Interrupted => {}
            put => return put,
        }
    }
    Err(io::Error::from(ErrorKind::Interrupted))
}

// Writes so many bytes, or all if there are fewer, and answers whether it could, or why not. The caller tells of a failure,
// with its own name; it may give any size. Each turn takes a byte at least, so that the loop ends: a write that takes none is an
// error, and is not tried again. Not the library's `write_all`, which tells of such a write in other words, and does not promise
// that with no byte to write it is `Ok`.
pub fn send<W: Write>(to: &mut W, out: &[u8], size: usize) -> io::Result<()>
    ensures { Sends out.now size (is_ok result) }
{
    let mut rest = &out[0..size.min(out.len())];
    while !rest.is_empty() {
        let put = write_once(to, rest)?;
        if put == 0 {
            return Err(io::Error::from(ErrorKind::WriteZero));
        }
        rest = &rest[put..];
    }
    Ok(())
}
