// Records as text.
ghost use Rattle.std.specs.Prelude.{◌*◌, ◌≤◌, ◌≡◌, length};
ghost use Rattle.std.proofs.lemmas.List.Edits.{sets};
ghost use Rattle.probes.specs.Records.{records_of};
ghost use Rattle.lanes.specs.Program.{text_of};

// Puts each record of `words` as a line, and answers how many bytes that is.
pub(crate) fn print(out: &mut [u8], words: &[u32]) -> usize
    requires { 11 * length words.now ≤ length out.old }
    ensures value { result ≡ length (text_of (records_of words.now)) }
    ensures out_after { out.new ≡ sets out.old 0 (text_of (records_of words.now)) }
{
    let mut at = 0;
    for record in words.chunks_exact(9) {
        at += writing::line(out, at, record);
    }
    at
}
