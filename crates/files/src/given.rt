// The words that a program is called with.
ghost use Rattle.std.specs.Prelude.{◌≤◌, length};

use crate::errors::say;
use std::env::{Env, FillError};
use std::io;

// Puts a word at the start of a lent buffer, and answers how many bytes it has; where there is no such word, or no
// room for it, it has none.
pub fn word(rt: &impl Env, i: usize, out: &mut [u8]) -> usize
    ensures bound { result ≤ length out.new }
{
    rt.arg(i, out).unwrap_or(0)
}

// How many words a program is called with, its own name among them.
fn word_count(rt: &impl Env) -> usize {
    for i in 0..usize::MAX {
        if let Err(FillError::NotPresent) = rt.arg(i, &mut []) {
            return i;
        }
    }
    usize::MAX
}

// Says how a program is called.
fn usage(rt: &impl Eprint, words: &str) -> io::Result<()> {
    say(rt, format_args!("usage: {words}\n"))
}

// Whether a program is called with so many words, its own name among them; if not, it says how it is called.
pub fn called(rt: &(impl Env + Eprint), count: usize, words: &str) -> io::Result<bool> {
    if word_count(rt) == count {
        return Ok(true);
    }
    usage(rt, words)?;
    Ok(false)
}

// The value of a decimal digit, and none of any other byte.
fn digit(byte: u8) -> Option<u32> {
    match byte {
        b'0'..=b'9' => Some((byte - b'0') as u32),
        _ => None,
    }
}

// The number that decimal digits say, if it is at most 4,294,967,295. The library's `parse` takes a plus sign too.
fn value(text: &[u8]) -> Option<u32> {
    if text.is_empty() {
        return None;
    }
    let mut sum: u32 = 0;
    for byte in text {
        sum = sum.checked_mul(10)?.checked_add(digit(*byte)?)?;
    }
    Some(sum)
}

// The number from 0 to the most that a word says; where it says none, the program says how it is called.
pub fn number(
    rt: &(impl Env + Eprint),
    i: usize,
    most: u32,
    words: &str,
) -> io::Result<Option<u32>> {
    let mut text = [0u8; 4096];
    let n = word(rt, i, &mut text);
    if let Some(said) = value(&text[..n])
        && said <= most
    {
        return Ok(Some(said));
    }
    usage(rt, words)?;
    Ok(None)
}
