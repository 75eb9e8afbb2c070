// Errors, on standard error.
use lanes::LineRefusal;
use std::io::Write;
use streams::{Failure, tell};

// Why the program stops before the end of both files: it is not called with two words; a read or a write failed; or the line
// after so many of a file is refused.
#[derive(Clone, Copy)]
pub(crate) enum Stop<'a> {
    Usage,
    Failed(Failure<'a>),
    Refused {
        name: &'a [u8],
        lines: u64,
        why: LineRefusal,
    },
}

impl<'a> From<Failure<'a>> for Stop<'a> {
    fn from(failure: Failure<'a>) -> Self {
        Stop::Failed(failure)
    }
}

// The line after so many, which is refused, and why. A file's name is bytes, so this is no `Display`.
fn refused<E: Write>(errors: &mut E, name: &[u8], lines: u64, why: LineRefusal) {
    let _ = errors.write_all(name);
    let _ = errors.write_all(b": line ");
    if let Some(line) = lines.checked_add(1) {
        let _ = write!(errors, "{line}");
    }
    let _ = write!(errors, ": {}: {why}\n", why.number());
}

impl Stop<'_> {
    // Tells of it.
    pub(crate) fn tell<E: Write>(&self, errors: &mut E) {
        match *self {
            Stop::Usage => {
                let _ = errors.write_all(b"usage: join FIRST SECOND\n");
            }
            Stop::Failed(failure) => tell(errors, b"join", failure.what, &failure.why),
            Stop::Refused { name, lines, why } => refused(errors, name, lines, why),
        }
    }
}
