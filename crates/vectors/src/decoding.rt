// Decodes a file, whole or one block of it. An entry is five numbers, the label and the file. The numbers are: the
// length of the label, and 0 for a whole file or 1 for a block, in two bytes each; which block, in four; the room in
// samples, at most 16,384, and the length of the file, in two each.
//
// It prints the answer and the lent sound; of more than 64 samples a number mixed of them as 16-bit PCM. Before that
// each sample is 7.
use crate::entries::label;
use crate::lent::{count, mixed_line, sound_line};
use std::io;
use units::{BytePlace, Frames, Refusal};

// The answer of decoding.
fn answer_line(rt: &impl Print, answer: Result<Frames, Refusal>) -> io::Result<()> {
    match answer {
        Ok(frames) => listing::frames(rt, frames),
        Err(refusal) => listing::refused(rt, refusal),
    }
}

// A number mixed of a sound of at most 32,768 samples.
pub fn heard_line(rt: &impl Print, sound: &[i16]) -> io::Result<()> {
    if 32768 < sound.len() {
        return Ok(());
    }
    let mut raw = [0u8; 65536];
    samples::to_pcm16(sound, &mut raw);
    mixed_line(
        rt,
        little::bytes_from(&raw, BytePlace(0), BytePlace(2 * sound.len())),
    )
}

// A lent sound.
fn lent_line(rt: &impl Print, out: &[i16]) -> io::Result<()> {
    if 64 < out.len() {
        return heard_line(rt, out);
    }
    sound_line(rt, "sound", out)
}

// Decodes a file, or a block of it, to a lent sound. The kind is a number of the input.
fn decode(rt: &impl Print, file: &[u8], kind: u16, block: u32, out: &mut [i16]) -> io::Result<()> {
    if kind == 0 {
        answer_line(rt, decode::decode(file, out))?;
        return lent_line(rt, out);
    }
    answer_line(rt, decode::decode_block(file, block, out))?;
    lent_line(rt, out)
}

// Decodes a file, or a block of it, into so many samples.
fn decode_in(rt: &impl Print, file: &[u8], kind: u16, block: u32, room: usize) -> io::Result<()> {
    let mut out = [7i16; 16384];
    let n = count(room, &out);
    decode(rt, file, kind, block, &mut out[..n])
}

pub fn entry(rt: &impl Print, table: &[u8]) -> io::Result<usize> {
    let kind = little::u16_or_zero(table, 2);
    let block = little::u32_or_zero(table, 4);
    let room = little::u16_or_zero(table, 8) as usize;
    let size = little::u16_or_zero(table, 10) as usize;
    let at = label(rt, table, 12)?;
    decode_in(
        rt,
        little::bytes_from(table, BytePlace(at), BytePlace(size)),
        kind,
        block,
        room,
    )?;
    Ok(at + size)
}
