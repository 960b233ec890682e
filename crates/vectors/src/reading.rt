// Reads a file. An entry is three numbers, the label and the file. The numbers are: the length of the label, and the
// room for texts in bytes, at most 16,384, in two bytes each; the length of the file, in four.
//
// It prints the listing and what the listing leaves out: align, samples per block, the positions of the cues, where
// the sound stands, and whether its pad is there. Then come the titles as a record holds them, or the refusal; how many
// bytes their texts have, and a number mixed of them; and whether the rest of the lent buffer is untouched, where each
// byte was 170.
use crate::entries::{label, past};
use crate::lent;
use riff::Pad;
use std::io;
use tables::{Cue, Cues};
use titles::{Title, Titles};
use units::BytePlace;

// The position of a cue, after a blank.
fn position(rt: &impl Print, cue: Cue) -> io::Result<()> {
    print!(rt; " {}", cue.position.0)
}

// The positions of the cues.
fn positions(rt: &impl Print, cues: Cues) -> io::Result<()> {
    for cue in cues.list.iter().take(cues.count as usize) {
        position(rt, *cue)?;
    }
    Ok(())
}

// Whether a pad is there.
fn pad_words(rt: &impl Print, pad: Pad) -> io::Result<()> {
    match pad {
        Pad::NotNeeded => print!(rt; " pad not needed "),
        Pad::There => print!(rt; " pad there "),
        Pad::Absent => print!(rt; " pad absent "),
    }
}

// Where the sound of a file starts, its pad, how long it is, and a number mixed of it.
fn sound_line(rt: &impl Print, file: &[u8]) -> io::Result<()> {
    let spot = reader::sound_spot(file);
    let bytes = reader::sound_of(file);
    print!(rt; "sound ")?;
    if let Some(place) = spot {
        let pad = place.pad;
        print!(rt; "at {}", place.start.0)?;
        pad_words(rt, pad)?;
    }
    show::mixed_line(rt, bytes)
}

// What the listing of a file leaves out; of a refused file all is 0.
fn more_line(rt: &impl Print, file: &[u8]) -> io::Result<()> {
    let (align, samples, cues) = match reader::open(file) {
        Ok(opened) => (
            opened.made.format.align,
            opened.made.format.samples,
            opened.made.cues,
        ),
        Err(_) => (0, 0, tables::no_cues()),
    };
    print!(rt; "align {align} samples {samples} positions")?;
    positions(rt, cues)?;
    println!(rt)
}

// A title: its kind, the name of its cue, where its text starts and how long it is, each after a blank.
fn title(rt: &impl Print, found: Title) -> io::Result<()> {
    let Title {
        kind,
        name,
        start,
        length,
    } = found;
    print!(rt; " {kind} {} {} {}", name.0, start.0, length.0)
}

// The titles of a table.
fn each_title(rt: &impl Print, titles: Titles) -> io::Result<()> {
    for found in titles.list.iter().take(titles.count as usize) {
        title(rt, *found)?;
    }
    Ok(())
}

// The titles of a file, and their texts in a lent buffer.
fn accepted_lines(rt: &impl Print, titles: Titles, out: &[u8]) -> io::Result<()> {
    each_title(rt, titles)?;
    println!(rt)?;
    let texts = lent::texts_of(titles, out);
    print!(rt; "texts ")?;
    show::mixed_line(rt, texts)?;
    lent::rest_line(rt, past(out, texts.len()))
}

// Reads a file, with a lent buffer for its texts.
fn read(rt: &impl Print, file: &[u8], out: &mut [u8]) -> io::Result<()> {
    match reader::read(file, out) {
        Ok(made) => accepted_lines(rt, made.titles, out),
        Err(refusal) => {
            print!(rt; " ")?;
            lent::refused_lines(rt, refusal, out)
        }
    }
}

// The same with so many bytes for its texts.
fn title_lines(rt: &impl Print, file: &[u8], room: u16) -> io::Result<()> {
    let mut out = [170u8; 16384];
    let n = (room as usize).min(out.len());
    print!(rt; "titles")?;
    read(rt, file, &mut out[..n])
}

pub fn entry(rt: &impl Print, table: &[u8]) -> io::Result<usize> {
    let room = little::u16_or_zero(table, 2);
    let size = little::u32_or_zero(table, 4) as usize;
    let at = label(rt, table, 8)?;
    let file = little::bytes_from(table, BytePlace(at), BytePlace(size));
    listing::list(rt, file)?;
    more_line(rt, file)?;
    sound_line(rt, file)?;
    title_lines(rt, file, room)?;
    Ok(at + size)
}
