// Lent buffers: how much of a sound is lent, the texts of titles in one, and what is printed of a buffer. One of bytes
// has 16,384 at most, each of which was 170 before; printed are the answer, what was written, and whether the rest is
// untouched.
ghost use Rattle.std.specs.Prelude.{◌≡◌, ◌≤◌, length, take};

use crate::entries::past;
use std::io;
use titles::Titles;
use units::{BytePlace, Refusal};

// So many samples of a sound, or as many as there are. The `ensures` is what lending that part of it asks for.
pub fn count(n: usize, sound: &[i16]) -> usize
    ensures bound { result ≤ length sound.now }
    ensures answer { result ≡ length (take result sound.now) }
{
    if sound.len() < n {
        return sound.len();
    }
    n
}

// The texts of titles, which stand from the start of some bytes; of more titles than there can be, all the bytes.
pub fn texts_of(titles: Titles, bytes: &[u8]) -> &[u8] {
    if 128 < titles.count {
        return bytes;
    }
    let size = titles::texts_end(titles);
    little::bytes_from(bytes, BytePlace(0), BytePlace(size))
}

// Bytes after a word.
pub fn bytes_line(rt: &impl Print, word: &str, bytes: &[u8]) -> io::Result<()> {
    print!(rt; "{word}")?;
    show::bytes(rt, bytes)?;
    println!(rt)
}

// Samples after a word.
pub fn sound_line(rt: &impl Print, word: &str, sound: &[i16]) -> io::Result<()> {
    print!(rt; "{word}")?;
    show::sound(rt, sound)?;
    println!(rt)
}

// A number mixed of bytes.
pub fn mixed_line(rt: &impl Print, bytes: &[u8]) -> io::Result<()> {
    println!(rt; "mixed {}", show::mixed_bytes(bytes))
}

// A file, or of more than 128 bytes a number mixed of them.
fn file_line(rt: &impl Print, file: &[u8]) -> io::Result<()> {
    if 128 < file.len() {
        return mixed_line(rt, file);
    }
    bytes_line(rt, "file", file)
}

// Whether what nothing was written to is as it was.
pub fn rest_line(rt: &impl Print, rest: &[u8]) -> io::Result<()> {
    let before = [170u8; 16384];
    let n = rest.len();
    let untouched = rest == little::bytes_from(&before, BytePlace(0), BytePlace(n));
    let told = if untouched { "untouched" } else { "changed" };
    println!(rt; "rest {n} {told}")
}

// A refusal, and the lent buffer.
pub fn refused_lines(rt: &impl Print, refusal: Refusal, out: &[u8]) -> io::Result<()> {
    listing::refused(rt, refusal)?;
    rest_line(rt, out)
}

// How many bytes were written to a lent buffer, and which.
pub fn written_lines(rt: &impl Print, size: usize, out: &[u8]) -> io::Result<()> {
    println!(rt; "bytes {size}")?;
    file_line(rt, little::bytes_from(out, BytePlace(0), BytePlace(size)))?;
    rest_line(rt, past(out, size))
}
