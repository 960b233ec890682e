// A row of document 01's table of refusals. An entry is two numbers of two bytes, the length of the meaning and the
// row, and the meaning. It prints the row's number as `units` gives it, and the meaning; in row 0, instead of a
// number, the largest that each unit holds.
use crate::entries::label;
use std::io;
use units::{BytePlace, Donation, Frames, Refusal};

// The refusal of a row.
fn refusal_in(row: u16) -> Refusal {
    match row {
        1 => Refusal::LengthOutOfRange,
        2 => Refusal::NotWave,
        3 => Refusal::RiffSizeWrong,
        4 => Refusal::ChunkPastTheEnd,
        5 => Refusal::SecondOfItsKind,
        6 => Refusal::DataBeforeFormat,
        7 => Refusal::WaveList,
        8 => Refusal::FormatOrDataMissing,
        9 => Refusal::FormatWrong,
        10 => Refusal::NotWholeFrames,
        11 => Refusal::FactWrong,
        12 => Refusal::CuesWrong,
        13 => Refusal::PlaylistWrong,
        14 => Refusal::OutputTooSmall,
        15 => Refusal::BlockHeaderWrong,
        16 => Refusal::SongEmptyOrDifferent,
        17 => Refusal::NoPlaceOnSide,
        18 => Refusal::AlreadyListed,
        19 => Refusal::NotASide,
        20 => Refusal::NoSuchBlock,
        _ => Refusal::TitlesWrong,
    }
}

// It takes what the units hold with no cast, so it compiles only where their widths are these.
fn largest(rt: &impl Print, frames: u32, place: usize, donation: u32) -> io::Result<()> {
    print!(rt; "frames {frames} place {place} donation {donation}")
}

// What stands before the meaning.
fn front(rt: &impl Print, row: u16) -> io::Result<()> {
    if row == 0 {
        let frames = Frames(4294967295);
        let place = BytePlace(18446744073709551615);
        let song = Donation(4294967295);
        return largest(rt, frames.0, place.0, song.0);
    }
    print!(rt; "{} ", units::number(refusal_in(row)))
}

pub fn entry(rt: &impl Print, table: &[u8]) -> io::Result<usize> {
    front(rt, little::u16_or_zero(table, 2))?;
    label(rt, table, 4)
}
