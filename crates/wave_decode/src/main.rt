// wave_decode IN OUT: decodes a WAVE file, and writes its sound as a WAVE file of 16-bit PCM with the same
// channels, rate, cues, playlist and titles to OUT, which is a new name. Prints how many frames it has and how many
// bytes the new file has; or `refused` and the number of the refusal, and then it writes nothing.
//
// IN may have 262,144 bytes at most; a longer one is `refused 1`. No such file lacks room. All is held on the
// stack, 3.5 MB.
#![tactic(auto)]

ghost use Rattle.std.specs.Prelude.{◌≤◌};

use std::io;
use std::rt::Runtime;
use units::BytePlace;
use wave::{Frames, Record};

// The channels of a file that was read: it has 1 or 2.
fn one_or_two(channels: u16) -> u16
    ensures bound { result ≤ 2 }
{
    if channels == 2 {
        return 2;
    }
    1
}

// The record of a file's sound as 16-bit PCM: places and lengths are frames, so they stay as they are.
fn plain(made: Record) -> Record {
    let old = made.format;
    Record {
        format: formats::plain(one_or_two(old.channels), old.rate, 16),
        frames: made.frames,
        cues: made.cues,
        playlist: made.playlist,
        titles: made.titles,
    }
}

// Puts a file where it is to be, and says what it holds.
fn keep(rt: &impl Runtime, frames: Frames, file: &[u8]) -> io::Result<()> {
    if !files::write(rt, "wave_decode", 2, file)? {
        return Ok(());
    }
    listing::frames(rt, frames)?;
    files::size(rt, file)
}

// Writes the file of a record, the texts of its titles and its sound.
fn write(rt: &impl Runtime, made: Record, texts: &[u8], sound: &[u8]) -> io::Result<()> {
    let mut out = files::new_room();
    match wave::write(made, texts, sound, &mut out) {
        Ok(size) => keep(
            rt,
            made.frames,
            little::bytes_from(&out, BytePlace(0), size),
        ),
        Err(refusal) => listing::refused(rt, refusal),
    }
}

// Writes the frames at the start of a sound.
fn write_sound(
    rt: &impl Runtime,
    made: Record,
    texts: &[u8],
    sound: &[i16; 524288],
) -> io::Result<()> {
    let mut raw = files::new_room();
    samples::to_pcm16(sound, &mut raw);
    let format = made.format;
    let n = files::samples_in(made.frames, format.channels);
    write(
        rt,
        made,
        texts,
        little::bytes_from(&raw, BytePlace(0), BytePlace(2 * n)),
    )
}

// Decodes a file.
fn decode(rt: &impl Runtime, file: &[u8]) -> io::Result<()> {
    let mut texts = files::texts_room();
    let made = match wave::read(file, &mut texts) {
        Ok(made) => made,
        Err(refusal) => return listing::refused(rt, refusal),
    };
    let mut sound = files::sound_room();
    match wave::decode(file, &mut sound) {
        Ok(_) => write_sound(rt, plain(made), &texts, &sound),
        Err(refusal) => listing::refused(rt, refusal),
    }
}

fn main(rt: HostRuntime) -> io::Result<()> {
    if !files::called(&rt, 3, "wave_decode IN OUT")? {
        return Ok(());
    }
    let mut buffer = files::file_room();
    let Some(n) = files::read(&rt, "wave_decode", 1, &mut buffer)? else {
        return Ok(());
    };
    if files::too_long(&rt, n)? {
        return Ok(());
    }
    decode(&rt, little::bytes_from(&buffer, BytePlace(0), BytePlace(n)))
}
