// wave_encode IN OUT ALIGN: makes the approval copy that a donor gets. Decodes a WAVE file, encodes its sound
// to IMA blocks of ALIGN bytes, and writes them as a WAVE file to OUT, which is a new name. Prints how many frames
// it has, how many bytes the new file has, and how many samples of each channel were chased; or `refused` and the
// number of the refusal, and then it writes nothing.
//
// IN may have 262,144 bytes at most; a longer one is `refused 1`. No such file lacks room. All is held on the
// stack, 3.5 MB.
#![tactic(auto)]

use std::io;
use std::rt::Runtime;
use units::BytePlace;
use wave::{Coded, Format, Frames, Record};

// How it is called.
const USAGE: &str = "wave_encode IN OUT ALIGN";

// Puts a file where it is to be, and says what it holds.
fn keep(rt: &impl Runtime, frames: Frames, told: Coded, file: &[u8]) -> io::Result<()> {
    if !files::write(rt, "wave_encode", 2, file)? {
        return Ok(());
    }
    listing::frames(rt, frames)?;
    files::size(rt, file)?;
    println!(rt; "chased left {}", told.left.0)?;
    println!(rt; "chased right {}", told.right.0)
}

// Writes the file of a record, which has no titles, and its blocks.
fn write(rt: &impl Runtime, made: Record, told: Coded, blocks: &[u8]) -> io::Result<()> {
    let mut out = files::new_room();
    match wave::write(made, b"", blocks, &mut out) {
        Ok(size) => keep(
            rt,
            made.frames,
            told,
            little::bytes_from(&out, BytePlace(0), size),
        ),
        Err(refusal) => listing::refused(rt, refusal),
    }
}

// Encodes a sound.
fn encode(
    rt: &impl Runtime,
    format: Format,
    frames: Frames,
    sound: &[i16],
    align: u16,
) -> io::Result<()> {
    let mut out = files::new_room();
    match wave::encode(sound, format.channels, align, &mut out) {
        Ok(told) => write(
            rt,
            wave::record_of(format.channels, format.rate, align, frames),
            told,
            little::bytes_from(&out, BytePlace(0), told.bytes),
        ),
        Err(refusal) => listing::refused(rt, refusal),
    }
}

// The samples of the frames at the start of a lent buffer.
fn heard(sound: &[i16], frames: Frames, channels: u16) -> &[i16] {
    let n = files::samples_in(frames, channels);
    if n <= sound.len() {
        return &sound[..n];
    }
    sound
}

// Makes the copy of a file.
fn copy(rt: &impl Runtime, file: &[u8], align: u16) -> io::Result<()> {
    let mut texts = files::texts_room();
    let format = match wave::read(file, &mut texts) {
        Ok(made) => made.format,
        Err(refusal) => return listing::refused(rt, refusal),
    };
    let mut sound = files::sound_room();
    match wave::decode(file, &mut sound) {
        Ok(frames) => encode(
            rt,
            format,
            frames,
            heard(&sound, frames, format.channels),
            align,
        ),
        Err(refusal) => listing::refused(rt, refusal),
    }
}

// Reads the file to be copied.
fn start(rt: &impl Runtime, align: u16) -> io::Result<()> {
    let mut buffer = files::file_room();
    let Some(n) = files::read(rt, "wave_encode", 1, &mut buffer)? else {
        return Ok(());
    };
    if files::too_long(rt, n)? {
        return Ok(());
    }
    copy(
        rt,
        little::bytes_from(&buffer, BytePlace(0), BytePlace(n)),
        align,
    )
}

fn main(rt: HostRuntime) -> io::Result<()> {
    if !files::called(&rt, 4, USAGE)? {
        return Ok(());
    }
    let Some(align) = files::number(&rt, 3, 65535, USAGE)? else {
        return Ok(());
    };
    // It is at most 65,535, so nothing of it is cut off.
    start(&rt, (align % 65536) as u16)
}
