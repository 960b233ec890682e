// The listing of a WAVE file on standard output: its format and frames, then a line for each cue and
// a line for each playlist entry; or the number of the refusal.
#![tactic(auto)]

use rules::Record;
use std::io;
use tables::{Cue, Cues, Play, Playlist};
use units::{Frames, Refusal};

// A refusal, by its number.
pub fn refused(rt: &impl Print, refusal: Refusal) -> io::Result<()> {
    println!(rt; "refused {}", units::number(refusal))
}

// How many frames there are.
pub fn frames(rt: &impl Print, count: Frames) -> io::Result<()> {
    println!(rt; "frames {}", count.0)
}

// A cue: its name and its place.
fn cue_line(rt: &impl Print, cue: Cue) -> io::Result<()> {
    println!(rt; "cue {} at {}", cue.name.0, cue.place.0)
}

// A line for each cue.
fn cues(rt: &impl Print, table: Cues) -> io::Result<()> {
    for cue in table.list.iter().take(table.count as usize) {
        cue_line(rt, *cue)?;
    }
    Ok(())
}

// A playlist entry: its name, how many frames, and how often.
fn play_line(rt: &impl Print, play: Play) -> io::Result<()> {
    println!(rt;
        "play {} length {} times {}",
        play.name.0, play.length.0, play.times
    )
}

// A line for each playlist entry.
fn plays(rt: &impl Print, playlist: Playlist) -> io::Result<()> {
    for play in playlist.list.iter().take(playlist.count as usize) {
        play_line(rt, *play)?;
    }
    Ok(())
}

// What a file says, line by line.
fn accepted(rt: &impl Print, made: Record) -> io::Result<()> {
    let format = made.format;
    let frames = made.frames.0;
    print!(rt;
        "wave tag {} channels {} rate {}",
        format.tag, format.channels, format.rate
    )?;
    println!(rt; " bits {} frames {frames}", format.bits)?;
    cues(rt, made.cues)?;
    plays(rt, made.playlist)
}

// The listing of a file. It shows no titles, so the file is opened and not read with room for their texts.
pub fn list(rt: &impl Print, file: &[u8]) -> io::Result<()> {
    match reader::open(file) {
        Ok(opened) => accepted(rt, opened.made),
        Err(refusal) => refused(rt, refusal),
    }
}
