// Reading a file whole.
ghost use Rattle.std.specs.Prelude.{◌<◌, ◌≤◌, length, take, OnOk};
ghost use Rattle.std.specs.Io.KnownBytes.{Consumes, IsAtEnd};

use crate::errors::failed;
use crate::given::word;
use std::env::Env;
use std::io::Read;
use std::rt::Files;
use std::{fs, io, str};

// Reads until there is no more, a read fails or the lent buffer is full. Answers how many bytes it put at its start,
// and why a read failed. A turn is as long as what was read, so this is no `for`.
pub fn fill<R: Read>(from: &mut R, out: &mut [u8]) -> (usize, io::Result<()>)
    ensures bound { result.0 ≤ length out.new }
    ensures bytes { Consumes (R.remaining from.old) (R.remaining from.new) (take result.0 out.new) }
    ensures end { OnOk result.1 (result.0 < length out.new → IsAtEnd (R.remaining from.new)) }
{
    let mut n = 0;
    while n < out.len() {
        match from.read(&mut out[n..]) {
            Ok(0) => break,
            Ok(more) => n += more,
            Err(error) => return (n, Err(error)),
        }
    }
    (n, Ok(()))
}

// A file's name as the text that the library asks for.
pub fn name_text(name: &[u8]) -> io::Result<&str> {
    match str::from_utf8(name) {
        Ok(text) => Ok(text),
        Err(_) => Err(io::Error::from(io::ErrorKind::InvalidFilename)),
    }
}

// Opens a file and reads it to a lent buffer.
fn read_file(rt: &impl Files, name: &[u8], out: &mut [u8]) -> io::Result<usize> {
    let mut file = fs::open(rt, name_text(name)?)?;
    let (n, read) = fill(&mut file, out);
    read?;
    Ok(n)
}

// Reads the file that a word names to a lent buffer, as much of it as there is room for, and answers how many bytes were
// read; none where there was an error, which is then reported.
pub fn read<R: Files + Env + Eprint + Alloc>(
    rt: &R,
    program: &str,
    i: usize,
    out: &mut [u8],
) -> io::Result<Option<usize>> {
    let mut name = [0u8; 4096];
    let n = word(rt, i, &mut name);
    match read_file(rt, &name[..n], out) {
        Ok(size) => Ok(Some(size)),
        Err(error) => {
            failed(rt, program, "read", &name[..n], error)?;
            Ok(None)
        }
    }
}
