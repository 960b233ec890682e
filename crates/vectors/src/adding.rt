// Adds a song to a side, and then once more to the new side. An entry is six numbers, the label, the side file and the
// song file. The numbers are: the length of the label; the room in bytes, at most 16,384; the lengths of the side file
// and the song file, all in two bytes each; the song's number and the limit in frames, in four each. Where both files
// have no bytes, an empty side is made: the number is its channels, the limit its rate.
//
// It prints the answer; the file, or of more than 128 bytes a number mixed of them; whether the rest of the lent
// buffer is untouched, where each byte was 170; and of a song that was added the number of the refusal when the same
// is asked of the new side, in 16,384 bytes, or 0 where it is accepted again.
use crate::entries::label;
use crate::lent::{refused_lines, written_lines};
use std::io;
use units::{BytePlace, Donation, Frames, Refusal};

// The number of a refusal, or 0 for a new side.
fn number_of(added: Result<BytePlace, Refusal>) -> u64 {
    match added {
        Ok(_) => 0,
        Err(refusal) => units::number(refusal) as u64,
    }
}

// What comes of a song that is added once more.
fn again_line(
    rt: &impl Print,
    old: &[u8],
    song: &[u8],
    number: Donation,
    limit: Frames,
) -> io::Result<()> {
    let mut out = [170u8; 16384];
    let added = side::add(old, song, number, limit, &mut out);
    println!(rt; "again {}", number_of(added))
}

// A new side in a lent buffer, and what comes of the same song again.
fn added_lines(
    rt: &impl Print,
    size: usize,
    out: &[u8],
    song: &[u8],
    number: Donation,
    limit: Frames,
) -> io::Result<()> {
    written_lines(rt, size, out)?;
    again_line(
        rt,
        little::bytes_from(out, BytePlace(0), BytePlace(size)),
        song,
        number,
        limit,
    )
}

// Adds a song to a side, in a lent buffer.
fn add(
    rt: &impl Print,
    old: &[u8],
    song: &[u8],
    number: Donation,
    limit: Frames,
    out: &mut [u8],
) -> io::Result<()> {
    match side::add(old, song, number, limit, out) {
        Ok(size) => added_lines(rt, size.0, out, song, number, limit),
        Err(refusal) => refused_lines(rt, refusal, out),
    }
}

// Makes an empty side in a lent buffer.
fn start(rt: &impl Print, channels: u16, rate: u32, out: &mut [u8]) -> io::Result<()> {
    match side::empty(channels, rate, out) {
        Ok(size) => written_lines(rt, size.0, out),
        Err(refusal) => refused_lines(rt, refusal, out),
    }
}

// Whether an entry asks for an empty side.
fn starts(old: &[u8], song: &[u8]) -> bool {
    old.len() == 0 && song.len() == 0
}

// Does what an entry asks for, in a lent buffer.
fn work(rt: &impl Print, head: &[u8], old: &[u8], song: &[u8], out: &mut [u8]) -> io::Result<()> {
    let number = little::u32_or_zero(head, 8);
    let limit = little::u32_or_zero(head, 12);
    if starts(old, song) {
        return start(rt, little::u16_or_zero(head, 8), limit, out);
    }
    add(rt, old, song, Donation(number), Frames(limit), out)
}

// The same in as many bytes as the entry says.
fn work_in(rt: &impl Print, head: &[u8], old: &[u8], song: &[u8]) -> io::Result<()> {
    let mut out = [170u8; 16384];
    let room = (little::u16_or_zero(head, 2) as usize).min(out.len());
    work(rt, head, old, song, &mut out[..room])
}

pub fn entry(rt: &impl Print, table: &[u8]) -> io::Result<usize> {
    let old = little::u16_or_zero(table, 4) as usize;
    let song = little::u16_or_zero(table, 6) as usize;
    let at = label(rt, table, 16)?;
    work_in(
        rt,
        table,
        little::bytes_from(table, BytePlace(at), BytePlace(old)),
        little::bytes_from(table, BytePlace(at + old), BytePlace(song)),
    )?;
    Ok(at + old + song)
}
