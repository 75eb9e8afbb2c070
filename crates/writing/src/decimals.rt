// A number as text.
ghost use Rattle.std.specs.Prelude.{◌+◌, ◌≤◌, ◌<◌, ◌≡◌, length};
ghost use Rattle.std.proofs.lemmas.List.Edits.{sets};
ghost use Rattle.writing.specs.Writing.{decimal, ended};

use itoa::write_digits;

// How many decimal digits a number has, by the logarithm.
fn count_digits(n: u32) -> usize
    ensures { (result ≡ length (decimal n)) × (result ≤ 10) }
{
    n.checked_ilog10().unwrap_or(0) as usize + 1
}

// How many decimal digits a number has. Most have one or two: with the logarithm alone `write` takes up to twice as long.
pub(crate) fn width(n: u32) -> usize
    ensures { (result ≡ length (decimal n)) × (result ≤ 10) }
{
    if n < 10 {
        return 1;
    }
    if n < 100 {
        return 2;
    }
    if n < 1000 {
        return 3;
    }
    count_digits(n)
}

// Puts the digits of `n`, however many, and the byte `end`, and answers the place after them.
#[inline(never)]
fn put_digits(dst: &mut [u8], at: usize, n: u32, end: u8) -> usize
    requires { at + length (decimal n) < length dst.old }
    ensures value { result ≡ at + length (ended n end) }
    ensures dst_after { dst.new ≡ sets dst.old at (ended n end) }
{
    let after = at + count_digits(n);
    write_digits(n.into(), dst, after);
    dst[after] = end;
    after + 1
}

// The same of three digits or more. A call by itself, so that `put_number` is short enough to stand in its callers; by the library
// `line` takes a third longer for numbers of three digits.
#[inline(never)]
fn put_long(dst: &mut [u8], at: usize, n: u32, end: u8) -> usize
    requires room { at + length (decimal n) < length dst.old }
    requires long { 100 ≤ n }
    ensures value { result ≡ at + length (ended n end) }
    ensures dst_after { dst.new ≡ sets dst.old at (ended n end) }
{
    if n < 1000 {
        let tens = n / 10;
        dst[at] = b'0' + (tens / 10) as u8;
        dst[at + 1] = b'0' + (tens % 10) as u8;
        dst[at + 2] = b'0' + (n % 10) as u8;
        dst[at + 3] = end;
        return at + 4;
    }
    put_digits(dst, at, n, end)
}

// Puts the digits of `n` and the byte `end`, and answers the place after them. Most numbers have one or two digits, and these are
// put here: with the call alone, `tokens` takes a tenth more for a line.
pub(crate) fn put_number(dst: &mut [u8], at: usize, n: u32, end: u8) -> usize
    requires { at + length (decimal n) < length dst.old }
    ensures value { result ≡ at + length (ended n end) }
    ensures dst_after { dst.new ≡ sets dst.old at (ended n end) }
{
    if n < 10 {
        dst[at] = b'0' + n as u8;
        dst[at + 1] = end;
        return at + 2;
    }
    if n < 100 {
        dst[at] = b'0' + (n / 10) as u8;
        dst[at + 1] = b'0' + (n % 10) as u8;
        dst[at + 2] = end;
        return at + 3;
    }
    put_long(dst, at, n, end)
}
