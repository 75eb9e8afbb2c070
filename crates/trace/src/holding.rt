// Bytes that are held until their line is whole.
ghost use Rattle.std.specs.Prelude.{◌≤◌, ◌≡◌, length, take, drop};
ghost use Rattle.std.proofs.lemmas.List.Edits.{sets};
ghost use Rattle.trace.specs.Arrivals.{ready_in, clipped};

use held::{move_up, whole};

// The bytes of `s` that can be answered.
pub(crate) fn ready(s: &[u8], last: bool) -> &[u8]
    ensures { result.now ≡ ready_in last s.now }
{
    if last { s } else { &s[..whole(s)] }
}

// The bytes of `s` that are held.
fn clip(s: &[u8]) -> &[u8]
    ensures { result.now ≡ clipped s.now }
{
    if whole(s) == 0 {
        &s[..s.len().min(97)]
    } else {
        s
    }
}

// Moves what is held of the bytes between two places to the front, and answers how many bytes that is.
pub(crate) fn hold(buf: &mut [u8], from: usize, to: usize) -> usize
    requires { (from ≤ to) × (to ≤ length buf.old) }
    ensures value { result ≡ length (clipped (drop from (take to buf.old))) }
    ensures buf_after { buf.new ≡ sets buf.old 0 (clipped (drop from (take to buf.old))) }
{
    let n = clip(&buf[from..to]).len();
    move_up(buf, from, n)
}
