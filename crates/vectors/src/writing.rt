// Writes a record, its texts and its sound, and reads back what it wrote. An entry is seventeen numbers, the label, a
// `cue ` and a `plst` as they stand in files, titles as four numbers of four bytes each, the texts and the sound. The
// numbers are: the length of the label; the room in bytes, at most 16,384; the lengths of the sound, the `cue ` and the
// `plst`; tag, channels, bits, align and samples; the lengths of the titles and the texts, all in two bytes each; rate,
// frames, and how many cues, playlist entries and titles the record counts, in four each.
//
// It prints the answer; the file, or of more than 128 bytes a number mixed of them; whether the rest of the lent
// buffer is untouched, where each byte was 170; and whether the file reads back as the record, with nothing past
// its counts, the texts of its titles, and the sound.
use crate::entries::label;
use crate::lent;
use formats::Format;
use rules::Record;
use std::io;
use tables::{Cues, Playlist};
use titles::{Title, Titles};
use units::{BytePlace, Donation, Frames, TextPlace};

// ---- the record of an entry

// The format in the head of an entry.
fn format_in(head: &[u8]) -> Format {
    Format {
        tag: little::u16_or_zero(head, 10),
        channels: little::u16_or_zero(head, 12),
        rate: little::u32_or_zero(head, 24),
        bits: little::u16_or_zero(head, 14),
        align: little::u16_or_zero(head, 16),
        samples: little::u16_or_zero(head, 18),
    }
}

// The cues of a `cue `, counted otherwise.
fn cues_in(cue: &[u8], count: u32) -> Cues {
    let cues = tables::cues_of(cue);
    let list = cues.list;
    Cues {
        count: count,
        list: list,
    }
}

// The entries of a `plst`, counted otherwise.
fn plays_in(plst: &[u8], count: u32) -> Playlist {
    let playlist = tables::plays_of(plst);
    let list = playlist.list;
    Playlist {
        count: count,
        list: list,
    }
}

// The title that sixteen bytes say.
fn title_in(bytes: &[u8]) -> Title {
    Title {
        kind: little::u32_or_zero(bytes, 0),
        name: Donation(little::u32_or_zero(bytes, 4)),
        start: TextPlace(little::u32_or_zero(bytes, 8)),
        length: TextPlace(little::u32_or_zero(bytes, 12)),
    }
}

// The titles of a table, counted otherwise.
fn titles_in(table: &[u8], count: u32) -> Titles {
    let none = titles::no_titles();
    let mut list = none.list;
    for i in 0..128 {
        list[i] = title_in(little::bytes_from(table, BytePlace(16 * i), BytePlace(16)));
    }
    Titles {
        count: count,
        list: list,
    }
}

// The record of an entry, with the tables of a `cue ` and a `plst`, and titles.
fn record_in(head: &[u8], cue: &[u8], plst: &[u8], titles: &[u8]) -> Record {
    Record {
        format: format_in(head),
        frames: Frames(little::u32_or_zero(head, 28)),
        cues: cues_in(cue, little::u32_or_zero(head, 32)),
        playlist: plays_in(plst, little::u32_or_zero(head, 36)),
        titles: titles_in(titles, little::u32_or_zero(head, 40)),
    }
}

// The same with nothing past its counts.
fn counted_in(head: &[u8], cue: &[u8], plst: &[u8], titles: &[u8]) -> Record {
    let cues = little::u32_or_zero(head, 32) as usize;
    let plays = little::u32_or_zero(head, 36) as usize;
    let count = little::u32_or_zero(head, 40) as usize;
    record_in(
        head,
        little::bytes_from(cue, BytePlace(0), BytePlace(4 + 24 * cues)),
        little::bytes_from(plst, BytePlace(0), BytePlace(4 + 12 * plays)),
        little::bytes_from(titles, BytePlace(0), BytePlace(16 * count)),
    )
}

// ---- reading back

// Whether two records are the same, past their counts too.
fn same_record(a: Record, b: Record) -> bool {
    let mut words = [0u32; 906];
    let mut words_too = [0u32; 906];
    words::put_record(&mut words, a);
    words::put_record(&mut words_too, b);
    words[..] == words_too[..]
}

// Whether the texts of a record are the same in two buffers.
fn same_texts(made: Record, a: &[u8], b: &[u8]) -> bool {
    let titles = made.titles;
    lent::texts_of(titles, a) == lent::texts_of(titles, b)
}

// Whether a file reads back as a record and its texts.
fn reads_back(file: &[u8], made: Record, texts: &[u8]) -> bool {
    let mut texts_too = [170u8; 16384];
    match reader::read(file, &mut texts_too) {
        Ok(back) => same_record(back, made) && same_texts(made, &texts_too, texts),
        Err(_) => false,
    }
}

// ---- writing

// What was written to a lent buffer, and whether it reads back.
fn written_lines(
    rt: &impl Print,
    size: usize,
    out: &[u8],
    made: Record,
    texts: &[u8],
    sound: &[u8],
) -> io::Result<()> {
    lent::written_lines(rt, size, out)?;
    let file = little::bytes_from(out, BytePlace(0), BytePlace(size));
    let back = reads_back(file, made, texts) && reader::sound_of(file) == sound;
    println!(rt; "{}", if back { "reads back" } else { "differs" })
}

// Writes a record, its texts and its sound to a lent buffer; counted is the record with nothing past its counts.
fn write(
    rt: &impl Print,
    made: Record,
    counted: Record,
    texts: &[u8],
    sound: &[u8],
    out: &mut [u8],
) -> io::Result<()> {
    match writer::write(made, texts, sound, out) {
        Ok(size) => written_lines(rt, size.0, out, counted, texts, sound),
        Err(refusal) => lent::refused_lines(rt, refusal, out),
    }
}

// Writes the record of an entry, its texts and its sound.
fn write_in(
    rt: &impl Print,
    head: &[u8],
    cue: &[u8],
    plst: &[u8],
    titles: &[u8],
    texts: &[u8],
    sound: &[u8],
) -> io::Result<()> {
    let made = record_in(head, cue, plst, titles);
    let counted = counted_in(head, cue, plst, titles);
    let mut out = [170u8; 16384];
    let room = (little::u16_or_zero(head, 2) as usize).min(out.len());
    write(rt, made, counted, texts, sound, &mut out[..room])
}

pub fn entry(rt: &impl Print, table: &[u8]) -> io::Result<usize> {
    let sound = little::u16_or_zero(table, 4) as usize;
    let cue = little::u16_or_zero(table, 6) as usize;
    let plst = little::u16_or_zero(table, 8) as usize;
    let titles = little::u16_or_zero(table, 20) as usize;
    let texts = little::u16_or_zero(table, 22) as usize;
    let at = label(rt, table, 44)?;
    let texts_at = at + cue + plst + titles;
    write_in(
        rt,
        table,
        little::bytes_from(table, BytePlace(at), BytePlace(cue)),
        little::bytes_from(table, BytePlace(at + cue), BytePlace(plst)),
        little::bytes_from(table, BytePlace(at + cue + plst), BytePlace(titles)),
        little::bytes_from(table, BytePlace(texts_at), BytePlace(texts)),
        little::bytes_from(table, BytePlace(texts_at + texts), BytePlace(sound)),
    )?;
    Ok(texts_at + texts + sound)
}
