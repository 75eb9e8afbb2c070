// Errors, on standard error.
use std::fmt::InlineText;
use std::io;
use std::io::Write;

// What failed, and why.
#[derive(Clone, Copy)]
pub struct Failure<'a> {
    pub what: &'a [u8],
    pub why: io::Error,
}

// An error's words, without the system's number for it, which the library puts behind them.
fn words(text: &str) -> &str {
    text.rsplit_once(" (os error ")
        .map_or(text, |(words, _)| words)
}

// Which program, what failed, and the error's words. Nothing is told of an error that cannot be told.
pub fn tell<W: Write>(errors: &mut W, program: &[u8], what: &[u8], why: &io::Error) {
    let text = InlineText::<320>::of(*why);
    let why = words(text.as_str()).as_bytes();
    for part in [program, b": ", what, b": ", why, b"\n"] {
        let _ = errors.write_all(part);
    }
}
