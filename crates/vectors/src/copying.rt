// Makes the approval copy of a sound: encodes it, writes its blocks as a file, and decodes that file. An entry is that
// of `encoding` with one number more before the label, the rate, in four bytes; the room is that of the blocks, and
// the file gets as much.
//
// It prints what refused and the number; or how many bytes the file has and a number mixed of them, the chased
// samples, the frames decoded and a number mixed of their sound as 16-bit PCM. Before that each byte is 170 and
// each sample 7; as many samples are lent as the sound has.
use crate::decoding::heard_line;
use crate::encoding::{Asked, asked_in, encode_asked};
use crate::entries::label;
use crate::lent::count;
use encode::Coded;
use rules::Record;
use std::io;
use units::{BytePlace, Frames, Refusal};

// A refusal, after the word for what refused.
fn refused(rt: &impl Print, word: &str, refusal: Refusal) -> io::Result<()> {
    print!(rt; "{word} ")?;
    listing::refused(rt, refusal)
}

// How many frames were decoded, and the lent sound.
fn heard_lines(rt: &impl Print, frames: Frames, heard: &[i16]) -> io::Result<()> {
    listing::frames(rt, frames)?;
    heard_line(rt, heard)
}

// Decodes a file to a lent sound.
fn decode(rt: &impl Print, file: &[u8], heard: &mut [i16]) -> io::Result<()> {
    match decode::decode(file, heard) {
        Ok(frames) => heard_lines(rt, frames, heard),
        Err(refusal) => refused(rt, "decode", refusal),
    }
}

// Decodes a file into so many samples, at most 32,768.
fn decode_in(rt: &impl Print, file: &[u8], room: usize) -> io::Result<()> {
    let mut heard = [7i16; 32768];
    let n = count(room, &heard);
    decode(rt, file, &mut heard[..n])
}

// What was written of a sound of n samples, and what is heard in it.
fn written_lines(rt: &impl Print, file: &[u8], coded: Coded, n: usize) -> io::Result<()> {
    show::mixed_line(rt, file)?;
    println!(rt; "chased left {} right {}", coded.left.0, coded.right.0)?;
    decode_in(rt, file, n)
}

// Writes the blocks of a sound of n samples to a lent buffer.
fn write(
    rt: &impl Print,
    made: Record,
    blocks: &[u8],
    coded: Coded,
    n: usize,
    out: &mut [u8],
) -> io::Result<()> {
    match writer::write(made, b"", blocks, out) {
        Ok(size) => written_lines(rt, little::bytes_from(out, BytePlace(0), size), coded, n),
        Err(refusal) => refused(rt, "write", refusal),
    }
}

// The frames of n samples, at most 32,768.
fn frames_in(n: usize, channels: u16) -> Frames {
    if 32768 < n {
        return Frames(0);
    }
    if channels == 2 {
        return Frames((n / 2) as u32);
    }
    Frames(n as u32)
}

// Writes the blocks of a sound of n samples into so many bytes.
fn write_in(
    rt: &impl Print,
    asked: Asked,
    blocks: &[u8],
    coded: Coded,
    n: usize,
) -> io::Result<()> {
    let frames = frames_in(n, asked.channels);
    let made = approval::record_of(asked.channels, asked.rate, asked.align, frames);
    let mut out = [170u8; 16384];
    let room = (asked.room as usize).min(out.len());
    write(rt, made, blocks, coded, n, &mut out[..room])
}

// The copy of a sound of n samples, whose blocks are in a lent buffer.
pub fn copy_lines(
    rt: &impl Print,
    answer: Result<Coded, Refusal>,
    asked: Asked,
    n: usize,
    out: &[u8],
) -> io::Result<()> {
    match answer {
        Ok(coded) => {
            write_in(
                rt,
                asked,
                little::bytes_from(out, BytePlace(0), coded.bytes),
                coded,
                n,
            )
        }
        Err(refusal) => refused(rt, "encode", refusal),
    }
}

pub fn entry(rt: &impl Print, table: &[u8]) -> io::Result<usize> {
    let size = little::u16_or_zero(table, 8) as usize;
    let rate = little::u32_or_zero(table, 10);
    let at = label(rt, table, 14)?;
    encode_asked(
        rt,
        little::bytes_from(table, BytePlace(at), BytePlace(size)),
        asked_in(table, rate, true),
    )?;
    Ok(at + size)
}
