// Trouble, in one line on standard error.
use std::alloc::{AllocError, Allocator};
use std::fmt::Display;
use std::io;

// Words, as they stand.
pub fn say(rt: &impl Eprint, words: impl Display + Drop) -> io::Result<()> {
    rt.eprint(words)
}

// The system's reason in its own words, without the number that std puts after them.
fn reason<A: Allocator>(alloc: A, error: io::Error) -> Result<String<A>, AllocError> {
    let mut text = format!(in alloc; "{error}")?;
    if let Some(at) = text.find(" (os error ") {
        text.truncate(at);
    }
    Ok(text)
}

// What a program cannot do, with which file, and the system's reason.
pub fn failed<R: Eprint + Alloc>(
    rt: &R,
    program: &str,
    deed: &str,
    name: &[u8],
    error: io::Error,
) -> io::Result<()> {
    let name = String::from_utf8_lossy(rt.alloc(), name)?;
    let reason = reason(rt.alloc(), error)?;
    say(
        rt,
        format_args!("{program}: cannot {deed} {name}: {reason}\n"),
    )
}
