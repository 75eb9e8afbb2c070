// Files by their names.
use std::fs::File;
use std::io;
use std::rt::Files;

// The system's number for a name that is no text.
const NO_TEXT: i32 = 84;

// Opens the file of that name for reading. A name is text to the library, so one whose bytes are no UTF-8 opens no file.
pub fn open<F: Files>(files: &F, name: &[u8]) -> io::Result<F::File> {
    match std::str::from_utf8(name) {
        Ok(text) => File::open(files, text),
        Err(_) => Err(io::Error::from_raw_os_error(NO_TEXT)),
    }
}
