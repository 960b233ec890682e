// The record of a WAVE file, and the verdict on its chunks: the refusals 9 to 13, in their order.
//
// Everything here goes by the bytes of the chunks, wherever they stood in a file; a record to be written
// is judged by the same rules. The list of titles is judged elsewhere; the record has room for it.
#![tactic(auto)]

ghost use Rattle.std.specs.Prelude.{◌≡◌, ◌<◌};
ghost use Rattle.formats.specs.Format.{format_of};
ghost use Rattle.rules.specs.Rules.{format_valid, fact_valid, cues_valid, plays_valid, verdict_of, record_verdict};
ghost use Rattle.rules.specs.Rules.{bare, with_titles, judged};

use formats::Format;
use tables::{Cues, Playlist};
use titles::Titles;
use units::{BytePlace, Frames, Refusal};

// What a WAVE file says besides its sound.
#[derive(Clone, Copy)]
pub struct Record {
    pub format: Format,
    pub frames: Frames,
    pub cues: Cues,
    pub playlist: Playlist,
    pub titles: Titles,
}

// A record without cues, playlist and titles.
pub fn bare(format: Format, frames: Frames) -> Record
    ensures answer { result ≡ bare format frames }
{
    Record {
        format,
        frames,
        cues: tables::no_cues(),
        playlist: tables::no_plays(),
        titles: titles::no_titles(),
    }
}

// The same record with other titles.
pub fn with_titles(made: Record, titles: Titles) -> Record
    ensures answer { result ≡ with_titles made titles }
{
    Record { titles, ..made }
}

// Whether a `fmt ` has its form and keeps its rule.
#[tactic(auto, unfolding(crate::specs::Rules::valid))]
fn format_valid(bytes: &[u8], format: Format) -> bool
    ensures answer { result ≡ format_valid bytes.now format }
{
    formats::format_form(bytes) && formats::format_rule(format)
}

// Whether a `fact` has its form, and the frames keep their rule.
#[tactic(auto, unfolding(crate::specs::Rules::valid))]
fn fact_valid(fact: &[u8], format: Format, sound: BytePlace, frames: Frames) -> bool
    ensures answer { result ≡ fact_valid fact.now format sound frames }
{
    formats::fact_form(fact) && formats::frames_rule(format, sound, frames)
}

// Whether a `cue ` has its form and keeps its rule.
#[tactic(auto, unfolding(crate::specs::Rules::valid))]
fn cues_valid(bytes: &[u8], cues: Cues, frames: Frames) -> bool
    ensures answer { result ≡ cues_valid bytes.now cues frames }
{
    tables::cues_form(bytes) && tables::cues_rule(cues, frames)
}

// Whether a `plst` has its form and keeps its rule.
#[tactic(auto, unfolding(crate::specs::Rules::valid))]
fn plays_valid(bytes: &[u8], playlist: Playlist, cues: Cues, frames: Frames) -> bool
    ensures answer { result ≡ plays_valid bytes.now playlist cues frames }
{
    tables::plays_form(bytes) && tables::plays_rule(playlist, cues, frames)
}

// The verdict on the chunks of a file, whose record they make.
#[tactic(auto, unfolding(crate::specs::Rules::chunk_checks, units::specs::Checks::decided))]
fn verdict_of(
    fmt: &[u8],
    sound: BytePlace,
    fact: &[u8],
    cue: &[u8],
    plst: &[u8],
    made: Record,
) -> Result<(), Refusal>
    ensures answer { result ≡ verdict_of
        (record {
          format = fmt.now;
          sound = sound;
          fact = fact.now;
          cues = cue.now;
          plays = plst.now;
        }) made }
{
    let Record {
        format,
        frames,
        cues,
        playlist,
        ..
    } = made;
    if !format_valid(fmt, format) {
        return Err(Refusal::FormatWrong);
    }
    if !formats::whole_blocks(format, sound) {
        return Err(Refusal::NotWholeFrames);
    }
    if !fact_valid(fact, format, sound, frames) {
        return Err(Refusal::FactWrong);
    }
    if !cues_valid(cue, cues, frames) {
        return Err(Refusal::CuesWrong);
    }
    if !plays_valid(plst, playlist, cues, frames) {
        return Err(Refusal::PlaylistWrong);
    }
    Ok(())
}

// The verdict on a record that is to be written with some bytes of sound.
#[tactic(auto, unfolding(crate::specs::Rules::record_checks, units::specs::Checks::decided))]
pub fn record_verdict(made: Record, sound: BytePlace) -> Result<(), Refusal>
    ensures answer { result ≡ record_verdict made sound }
{
    let Record {
        format,
        frames,
        cues,
        playlist,
        ..
    } = made;
    if !formats::format_rule(format) {
        return Err(Refusal::FormatWrong);
    }
    if !formats::whole_blocks(format, sound) {
        return Err(Refusal::NotWholeFrames);
    }
    if !formats::frames_rule(format, sound, frames) {
        return Err(Refusal::FactWrong);
    }
    if !tables::cues_rule(cues, frames) {
        return Err(Refusal::CuesWrong);
    }
    if !tables::plays_rule(playlist, cues, frames) {
        return Err(Refusal::PlaylistWrong);
    }
    Ok(())
}

// The verdict on the chunks of a file, and what they say where it is taken. The format is what the `fmt ` says;
// the record has no titles.
#[tactic(auto, unfolding(crate::specs::Rules::judged, crate::specs::Rules::record_of))]
pub fn judge(
    fmt: &[u8],
    format: Format,
    sound: BytePlace,
    fact: &[u8],
    cue: &[u8],
    plst: &[u8],
) -> Result<Record, Refusal>
    requires format_value { format ≡ format_of fmt.now }
    requires sound_bound { sound.0 < 4294967296 }
    ensures answer { result ≡ judged
        (record {
          format = fmt.now;
          sound = sound;
          fact = fact.now;
          cues = cue.now;
          plays = plst.now;
        }) }
{
    let frames = formats::frames_of(format, sound, fact);
    let cues = tables::cues_of(cue);
    let playlist = tables::plays_of(plst);
    let made = Record {
        format,
        frames,
        cues,
        playlist,
        titles: titles::no_titles(),
    };
    verdict_of(fmt, sound, fact, cue, plst, made)?;
    Ok(made)
}
