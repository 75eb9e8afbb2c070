// Numbers as a line of text.
ghost use Rattle.std.specs.Prelude.{◌+◌, ◌*◌, ◌≤◌, cond as pick, ◌≡◌, length};
ghost use Rattle.std.proofs.lemmas.List.Edits.{sets};
ghost use Rattle.writing.specs.Writing.{line_of, lined, lined_count};

use crate::decimals::put_number;

// The byte after a number.
fn byte_after(last: bool) -> u8
    ensures { result ≡ pick last 10 9 }
{
    if last { b'\n' } else { b'\t' }
}

// Puts numbers as a line from place `at` on, where there is room, and answers the place after it.
fn place_line(dst: &mut [u8], at: usize, numbers: &[u32]) -> usize
    requires { at + 11 * length numbers.now ≤ length dst.old }
    ensures value { result ≡ at + length (line_of numbers.now) }
    ensures dst_after { dst.new ≡ sets dst.old at (line_of numbers.now) }
{
    let mut p = at;
    for (k, &number) in numbers.iter().enumerate() {
        let end = byte_after(k + 1 == numbers.len());
        p = put_number(dst, p, number, end);
    }
    p
}

// Puts numbers as a line from place `at` on, and answers how many bytes it is; 0, and nothing is put, where there are not 11
// bytes for each number.
pub fn line(dst: &mut [u8], at: usize, numbers: &[u32]) -> usize
    ensures value { result ≡ lined_count dst.old at numbers.now }
    ensures dst_after { dst.new ≡ lined dst.old at numbers.now }
{
    if dst.len() < at {
        return 0;
    }
    if (dst.len() - at) / 11 < numbers.len() {
        return 0;
    }
    place_line(dst, at, numbers) - at
}
