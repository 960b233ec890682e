// Writing a new file.
use crate::errors::failed;
use crate::given::word;
use crate::reading::name_text;
use std::env::Env;
use std::fs::{OpenFile, OpenOptions};
use std::io::Write;
use std::rt::Files;
use std::{fs, io};

// Makes a file that is not there yet, and opens it for writing.
fn made<R: Files>(rt: &R, name: &[u8]) -> io::Result<R::File> {
    OpenOptions::new()
        .write(true)
        .create_new(true)
        .open(rt, name_text(name)?)
}

// Writes to an open file, and closes it. The system may tell of a failed write only late, and closing tells nothing,
// so it is asked before.
fn stored<F: Write + OpenFile + Drop>(mut file: F, bytes: &[u8]) -> io::Result<()> {
    file.write_all(bytes)?;
    file.sync_all()
}

// Takes away a file that is not whole.
fn remove(rt: &impl Files, name: &[u8]) -> io::Result<()> {
    fs::remove_file(rt, name_text(name)?)
}

// Writes the file that a word names, which is not there yet, and answers whether it is there, whole; where it
// is not, nothing is left of it.
pub fn write<R: Files + Env + Eprint + Alloc>(
    rt: &R,
    program: &str,
    i: usize,
    bytes: &[u8],
) -> io::Result<bool> {
    let mut name = [0u8; 4096];
    let n = word(rt, i, &mut name);
    let file = match made(rt, &name[..n]) {
        Ok(file) => file,
        Err(error) => {
            failed(rt, program, "make", &name[..n], error)?;
            return Ok(false);
        }
    };
    if let Err(error) = stored(file, bytes) {
        let told = failed(rt, program, "write", &name[..n], error);
        // Trouble with taking it away too is not reported.
        let _ = remove(rt, &name[..n]);
        told?;
        return Ok(false);
    }
    Ok(true)
}
