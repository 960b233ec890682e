// Codes a sound. An entry is five numbers of two bytes, the label and the sound, as 16-bit PCM. The numbers are: the
// length of the label; the channels; align; the room in bytes, at most 16,384; the length of the sound.
//
// It prints the answer, a number mixed of the lent buffer and the buffer's first 32 bytes. Before that each byte is
// 170.
use crate::copying::copy_lines;
use crate::entries::label;
use crate::lent::{bytes_line, count};
use encode::Coded;
use std::io;
use units::{BytePlace, Refusal};

// What an entry asks for. A copy goes on with the blocks.
#[derive(Drop)]
pub struct Asked {
    pub channels: u16,
    pub align: u16,
    pub room: u16,
    pub rate: u32,
    pub copied: bool,
}

// What coding gave.
fn coded_line(rt: &impl Print, coded: Coded) -> io::Result<()> {
    let Coded { bytes, left, right } = coded;
    println!(rt; "bytes {} left {} right {}", bytes.0, left.0, right.0)
}

// The answer of coding.
fn answer_line(rt: &impl Print, answer: Result<Coded, Refusal>) -> io::Result<()> {
    match answer {
        Ok(coded) => coded_line(rt, coded),
        Err(refusal) => listing::refused(rt, refusal),
    }
}

// A lent buffer: a number mixed of it, and its first bytes.
fn buffer_line(rt: &impl Print, out: &[u8]) -> io::Result<()> {
    print!(rt; "mixed {}", show::mixed_bytes(out))?;
    bytes_line(
        rt,
        " starts",
        little::bytes_from(out, BytePlace(0), BytePlace(32)),
    )
}

// Codes a sound to a lent buffer.
fn encode(rt: &impl Print, sound: &[i16], asked: Asked, out: &mut [u8]) -> io::Result<()> {
    let answer = encode::encode(sound, asked.channels, asked.align, out);
    if asked.copied {
        return copy_lines(rt, answer, asked, sound.len(), out);
    }
    answer_line(rt, answer)?;
    buffer_line(rt, out)
}

// Codes a sound of 16-bit PCM, with its samples in a lent buffer, into so many bytes.
fn encode_in(rt: &impl Print, data: &[u8], asked: Asked, sound: &mut [i16]) -> io::Result<()> {
    if sound.len() < data.len() / 2 {
        return Ok(());
    }
    samples::from_pcm16(data, sound);
    let mut out = [170u8; 16384];
    let room = (asked.room as usize).min(out.len());
    encode(rt, sound, asked, &mut out[..room])
}

// The same of at most 32,768 samples.
pub fn encode_asked(rt: &impl Print, data: &[u8], asked: Asked) -> io::Result<()> {
    let mut sound = [0i16; 32768];
    let n = count(data.len() / 2, &sound);
    encode_in(rt, data, asked, &mut sound[..n])
}

// What the head of an entry asks for.
pub fn asked_in(head: &[u8], rate: u32, copied: bool) -> Asked {
    Asked {
        channels: little::u16_or_zero(head, 2),
        align: little::u16_or_zero(head, 4),
        room: little::u16_or_zero(head, 6),
        rate: rate,
        copied: copied,
    }
}

pub fn entry(rt: &impl Print, table: &[u8]) -> io::Result<usize> {
    let size = little::u16_or_zero(table, 8) as usize;
    let at = label(rt, table, 10)?;
    encode_asked(
        rt,
        little::bytes_from(table, BytePlace(at), BytePlace(size)),
        asked_in(table, 0, false),
    )?;
    Ok(at + size)
}
