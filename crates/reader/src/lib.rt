// Reading a WAVE file: its record, the texts of its titles, and its sound as that very part of the file.
//
// The cost goes by the number of chunks and of titles; the sound is not looked at.
#![tactic(auto)]

ghost use Rattle.std.specs.Prelude.{◌≡◌, ◌+◌, ◌≤◌, [], cond, leb, length, Ok, IfOk};
ghost use Rattle.units.specs.Refusals.{file_limit};
ghost use Rattle.little.specs.Writing.{front, holding};
ghost use Rattle.formats.specs.Frames.{needs_fact};
ghost use Rattle.riff.specs.Walk.{part_of};
ghost use Rattle.rules.specs.Rules.{judged, reading_verdict};
ghost use Rattle.reader.specs.Content.{zeros, chunks_at, content_at, titled, judged_at, reading_of};
ghost use Rattle.reader.specs.Content.{sound_spot, sound_in, sound_start, titles_spot, texts_in, reading, reading_in, opened_reading, opened_sound, opened_titles};

use formats::Format;
use riff::{Directory, Place};
use rules::Record;
use units::{BytePlace, Refusal};

// What a file says, and where its sound data and its list of titles stand.
#[derive(Clone, Copy)]
pub struct Opened {
    pub made: Record,
    pub sound: Option<Place>,
    pub titles: Option<Place>,
}

// The bytes of the `fact`; an absent one is read as nothing where it is needed, and as a count of 0 where not.
fn fact_part(file: &[u8], fact: Option<Place>, format: Format) -> &[u8]
    ensures part { result.now ≡ part_of file.now fact (cond (needs_fact format) [] zeros) }
{
    if formats::needs_fact(format) {
        return riff::part(file, fact, b"");
    }
    riff::part(file, fact, b"\0\0\0\0")
}

// What the chunks of a file say, or the refusal. Four zeros are a count of 0: an absent table is read as an
// empty one.
#[tactic(auto, using(crate::proofs::Laws::chunks))]
fn read_parts(file: &[u8], places: Directory) -> Result<Record, Refusal>
    requires { length file.now ≤ file_limit }
    ensures answer { result ≡ judged (chunks_at file.now places) }
{
    let fmt = riff::part(file, places.format, b"");
    let sound = riff::part(file, places.sound, b"");
    let format = formats::format_of(fmt);
    let fact = fact_part(file, places.fact, format);
    let cue = riff::part(file, places.cues, b"\0\0\0\0");
    let plst = riff::part(file, places.plays, b"\0\0\0\0");
    rules::judge(fmt, format, BytePlace(sound.len()), fact, cue, plst)
}

// A record with the titles of a list, whose own pad is lost or not, or the refusal.
#[tactic(auto, unfolding(crate::specs::Content::titled, titles::specs::Lists::list_read))]
fn with_list(made: Record, list: &[u8], lost: bool) -> Result<Record, Refusal>
    requires { length list.now ≤ file_limit }
    ensures answer { result ≡ titled made lost list.now }
{
    let titles = titles::read_list(list, lost, made.cues).ok_or(Refusal::TitlesWrong)?;
    Ok(rules::with_titles(made, titles))
}

// What a file says with the titles of its list, or the refusal.
#[tactic(auto, using(crate::proofs::Titles::titling))]
fn read_titles(file: &[u8], places: Directory, untitled: Record) -> Result<Record, Refusal>
    requires { (length file.now ≤ file_limit) × (judged (chunks_at file.now places) ≡ Ok untitled) }
    ensures answer { result ≡ judged_at file.now places }
{
    if places.second {
        return Err(Refusal::TitlesWrong);
    }
    let list = riff::part(file, places.titles, b"");
    with_list(untitled, list, riff::pad_lost(places.titles))
}

// What a file with these chunks says, or the refusal, where `fmt ` and `data` are there. Most files have no list of
// titles: their record is told as it was judged, and is not copied once more for the titles that it has not.
#[tactic(auto, using(crate::proofs::Titles::titling))]
fn judge_parts(file: &[u8], places: Directory) -> Result<Record, Refusal>
    requires { length file.now ≤ file_limit }
    ensures answer { result ≡ judged_at file.now places }
{
    let untitled = read_parts(file, places)?;
    if places.second || places.titles.is_some() {
        return read_titles(file, places, untitled);
    }
    Ok(untitled)
}

// What a file with these chunks says, and where its sound data and its list of titles stand, or the refusal.
#[tactic(auto, using(crate::proofs::Laws::chunks))]
fn open_chunks(file: &[u8], places: Directory) -> Result<Opened, Refusal>
    requires { length file.now ≤ file_limit }
    ensures answer { opened_reading result ≡ reading_of (content_at file.now places) }
    ensures stands { IfOk result (λ o. (o.sound ≡ places.sound) × (o.titles ≡ places.titles)) }
{
    if places.format.is_none() || places.sound.is_none() {
        return Err(Refusal::FormatOrDataMissing);
    }
    let made = judge_parts(file, places)?;
    Ok(Opened {
        made,
        sound: places.sound,
        titles: places.titles,
    })
}

// The record of a file, and where its sound data and its list of titles stand, or the refusal.
#[tactic(auto, using(crate::proofs::Laws::opens_by))]
pub fn open(file: &[u8]) -> Result<Opened, Refusal>
    ensures answer { opened_reading result ≡ reading file.now }
    ensures sound { opened_sound result ≡ sound_spot file.now }
    ensures titles { opened_titles result ≡ titles_spot file.now }
{
    let places = riff::chunks(file)?;
    open_chunks(file, places)
}

// Puts the texts of a file that was opened from the start of a lent buffer, where there is room for them.
#[tactic(auto, using(crate::proofs::Titles::texting))]
pub fn put_texts(file: &[u8], spot: Option<Place>, end: usize, texts: &mut [u8]) -> bool
    requires { (spot ≡ titles_spot file.now) × (end ≡ length (texts_in file.now)) }
    ensures answer { result ≡ leb (length (texts_in file.now)) (length texts.old) }
    ensures buffer { texts.new ≡ cond result (front (texts_in file.now) texts.old) texts.old }
{
    if texts.len() < end {
        return false;
    }
    if spot.is_some() {
        let list = riff::part(file, spot, b"");
        titles::put_texts(list, riff::pad_lost(spot), texts);
    }
    true
}

// The record of a file, or the refusal; the texts of its titles go to a lent buffer, from its start.
#[tactic(auto, using(crate::proofs::Laws::opens_by, crate::proofs::Titles::texting))]
pub fn read(file: &[u8], texts: &mut [u8]) -> Result<Record, Refusal>
    ensures answer { result ≡ reading_in file.now (length texts.old) }
    ensures buffer { texts.new ≡ holding (reading_verdict result) (texts_in file.now) texts.old }
{
    let opened = open(file)?;
    let end = titles::texts_end(opened.made.titles);
    if !put_texts(file, opened.titles, end, texts) {
        return Err(Refusal::OutputTooSmall);
    }
    Ok(opened.made)
}

// Where the sound data of a file stand; of a refused file, nowhere.
#[tactic(auto, using(crate::proofs::Laws::opens_by))]
pub fn sound_spot(file: &[u8]) -> Option<Place>
    ensures answer { result ≡ sound_spot file.now }
{
    match open(file) {
        Ok(opened) => opened.sound,
        Err(_) => None,
    }
}

// The sound data of a file, that very part of it; of a refused file, the empty part at its start.
pub fn sound_of(file: &[u8]) -> &[u8]
    ensures part { result.now ≡ sound_in file.now }
    ensures lent { result.ref_ptr.0 ≡ file.entry.ref_ptr.0 }
    ensures place { result.ref_ptr.1 ≡ file.entry.ref_ptr.1 + sound_start file.now }
{
    let spot = sound_spot(file);
    riff::part(file, spot, &file[..0])
}
