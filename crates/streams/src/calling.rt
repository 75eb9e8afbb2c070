// The words that a program is called with.
ghost use Rattle.std.specs.Prelude.{◌≤◌, ◌≡◌, pos, length, Some, IfErr, IfOk, IfSome};
ghost use Rattle.std.specs.IoError.{raw_os_error};

use std::env::FillError;
use std::io;
use std::rt::Env;

// A path has no more bytes.
pub const MOST: usize = 4096;

// The system's number for a name that is longer.
const TOO_LONG: i32 = 36;

// The word at a place, or none where the program is called with fewer; word 0 is its own name. One that is longer than the room
// lent for it is an error, by the system's words for a name that is too long.
pub fn word<'a, V: Env>(env: &V, i: usize, room: &'a mut [u8]) -> io::Result<Option<&'a [u8]>>
    ensures fits { IfOk result (λ w. IfSome w (λ s. length s.now ≤ length room.old)) }
    ensures too_long { IfErr result (λ why. raw_os_error why ≡ Some (pos 36)) }
{
    match env.arg(i, room) {
        Ok(n) => Ok(Some(&room[0..n])),
        Err(FillError::NotPresent) => Ok(None),
        Err(FillError::TooLong) => Err(io::Error::from_raw_os_error(TOO_LONG)),
    }
}
