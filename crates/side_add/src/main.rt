// side_add SIDE SONG NUMBER LIMIT OUT: adds a song under its donation number to a side that may have LIMIT
// frames, and writes the new side to OUT, which is a new name. Prints the number and how many bytes the new side
// has; or `refused` and the number of the refusal, 18 where the song is on the side already, and then it writes
// nothing.
//
// SIDE and SONG may have 262,144 bytes each at most; a longer one is `refused 1`. So may the new side, which is
// to be read again; a new side longer than that is `refused 14`. All is held on the stack, 0.9 MB.
#![tactic(auto)]

use std::io;
use std::rt::Runtime;
use units::BytePlace;
use wave::{Donation, Frames};

// How it is called.
const USAGE: &str = "side_add SIDE SONG NUMBER LIMIT OUT";

// Puts the new side where it is to be, and says what was added.
fn keep(rt: &impl Runtime, number: Donation, file: &[u8]) -> io::Result<()> {
    if !files::write(rt, "side_add", 5, file)? {
        return Ok(());
    }
    println!(rt; "added {}", number.0)?;
    files::size(rt, file)
}

// Adds a song to a side. The new side has an even number of bytes, so in this room it has 262,144 at most.
fn add(
    rt: &impl Runtime,
    side: &[u8],
    song: &[u8],
    number: Donation,
    limit: Frames,
) -> io::Result<()> {
    let mut out = files::file_room();
    match wave::add(side, song, number, limit, &mut out) {
        Ok(size) => keep(rt, number, little::bytes_from(&out, BytePlace(0), size)),
        Err(refusal) => listing::refused(rt, refusal),
    }
}

// Reads the song, and adds it to a side that was read.
fn add_to(rt: &impl Runtime, side: &[u8], number: Donation, limit: Frames) -> io::Result<()> {
    let mut buffer = files::file_room();
    let Some(n) = files::read(rt, "side_add", 2, &mut buffer)? else {
        return Ok(());
    };
    if files::too_long(rt, side.len())? {
        return Ok(());
    }
    if files::too_long(rt, n)? {
        return Ok(());
    }
    add(
        rt,
        side,
        little::bytes_from(&buffer, BytePlace(0), BytePlace(n)),
        number,
        limit,
    )
}

// Reads the side.
fn start(rt: &impl Runtime, number: Donation, limit: Frames) -> io::Result<()> {
    let mut buffer = files::file_room();
    let Some(n) = files::read(rt, "side_add", 1, &mut buffer)? else {
        return Ok(());
    };
    add_to(
        rt,
        little::bytes_from(&buffer, BytePlace(0), BytePlace(n)),
        number,
        limit,
    )
}

fn main(rt: HostRuntime) -> io::Result<()> {
    if !files::called(&rt, 6, USAGE)? {
        return Ok(());
    }
    let Some(number) = files::number(&rt, 3, 4294967295, USAGE)? else {
        return Ok(());
    };
    let Some(limit) = files::number(&rt, 4, 4294967295, USAGE)? else {
        return Ok(());
    };
    start(&rt, Donation(number), Frames(limit))
}
