// Adding a song to a side, and an empty side to begin with.
//
// A side is one WAVE file with a cue point and a playlist entry for each song. A number that is listed is
// never added again, and the songs that are there stay as they are. All is settled before the first store.
// The sound is copied once; it is looked at only where the number is listed.
#![tactic(auto)]

ghost use Rattle.std.specs.Prelude.{◌≡◌, true, ◌&&◌, [], ◌++◌, ◌+◌, ◌≤◌, ◌<◌, min, eqb, length, take, get_or, Ok};
ghost use Rattle.units.specs.Checks.{decided};
ghost use Rattle.little.specs.Writing.{holding};
ghost use Rattle.writer.specs.File.{writing, file_of, written_verdict};
ghost use Rattle.tables.specs.Cues.{no_cue};
ghost use Rattle.titles.specs.Titles.{texts_of};
ghost use Rattle.titles.specs.Lists.{entries_in};
ghost use Rattle.side.specs.Side.{sixteen_bit, tiled, is_side, bytes_of_frames, frames_at, sound_at};
ghost use Rattle.side.specs.Adding.{suits, has_place, once_more, place_checks, add_verdict, with_song, WithList};
ghost use Rattle.side.specs.Adding.{new_file, adding, empty_side};

use formats::Format;
use rules::Record;
use tables::{Cue, Cues, Play, Playlist};
use units::{BytePlace, Donation, Frames, Refusal};

// ---- a side

// Whether sound is 16-bit PCM.
#[tactic(auto, unfolding(crate::specs::Side::sixteen_bit))]
fn is_sixteen_bit(format: Format) -> bool
    ensures answer { result ≡ sixteen_bit format }
{
    format.tag == formats::PCM && format.bits == 16
}

// Whether a cue stands where the song before it ended, and an entry plays it once.
fn follows(cue: Cue, play: Play, end: u64) -> bool
    ensures answer { result ≡ (eqb cue.place.0 end && eqb play.name.0 cue.name.0 && eqb play.times 1) }
{
    cue.place.0 as u64 == end && play.name.0 == cue.name.0 && play.times == 1
}

// Whether cues, each played once and whole by its entry, tile so many frames. There are as many entries as cues.
#[tactic(auto, using(crate::proofs::Judging::tiling))]
fn tile(cues: &[Cue], plays: &[Play], frames: Frames) -> bool
    requires { (length cues.now ≤ 64) × (length plays.now ≡ length cues.now) }
    ensures answer { result ≡ tiled cues.now plays.now 0 frames.0 }
{
    let mut end = 0;
    for (i, cue) in cues.iter().enumerate() {
        let play = plays[i];
        if !follows(*cue, play, end) {
            return false;
        }
        end += play.length.0 as u64;
    }
    end == frames.0 as u64
}

// Whether the cues, each played once and whole by its entry, tile so many frames.
#[tactic(auto, using(crate::proofs::Judging::judging))]
fn tables_tile(cues: Cues, playlist: Playlist, frames: Frames) -> bool
    requires { (cues.count ≤ 64) × (playlist.count ≤ 64) }
    ensures answer { result ≡ tiled (take cues.count cues.list) (take playlist.count playlist.list) 0 frames.0 }
{
    let n = cues.count as usize;
    if cues.count != playlist.count {
        return false;
    }
    tile(&cues.list[..n], &playlist.list[..n], frames)
}

// Whether a record is that of a side.
#[tactic(auto, unfolding(crate::specs::Side::is_side, crate::specs::Side::cue_list, crate::specs::Side::play_list))]
fn is_side(made: Record) -> bool
    requires { (made.cues.count ≤ 64) × (made.playlist.count ≤ 64) }
    ensures answer { result ≡ is_side made }
{
    is_sixteen_bit(made.format) && tables_tile(made.cues, made.playlist, made.frames)
}

// ---- the verdict on adding

// Whether a song can stand on a side: 16-bit PCM of its channels and rate.
#[tactic(auto, unfolding(crate::specs::Adding::suits))]
fn song_suits(side: Format, song: Format) -> bool
    ensures answer { result ≡ suits side song }
{
    is_sixteen_bit(song) && song.channels == side.channels && song.rate == side.rate
}

// Whether there is place for one song more, of so many frames.
#[tactic(auto, unfolding(crate::specs::Adding::has_place))]
fn has_place(made: Record, frames: Frames, limit: Frames) -> bool
    ensures answer { result ≡ has_place made frames limit }
{
    made.cues.count < tables::MOST && made.frames.0 as u64 + frames.0 as u64 <= limit.0 as u64
}

// How many bytes so many frames of PCM are.
#[tactic(auto, using(crate::proofs::Placing::parting))]
fn frames_size(format: Format, frames: Frames) -> BytePlace
    ensures size { result.0 ≡ bytes_of_frames format frames.0 }
{
    BytePlace(format.align as usize * frames.0 as usize)
}

// The sound of so many frames from a place on, that very part of a sound.
fn frames_at(format: Format, sound: &[u8], place: Frames, frames: Frames) -> &[u8]
    ensures part { result.now ≡ frames_at format sound.now place frames }
    ensures lent { result.ref_ptr.0 ≡ sound.entry.ref_ptr.0 }
    ensures place { result.ref_ptr.1
        ≡ sound.entry.ref_ptr.1 + min (bytes_of_frames format place.0) (length sound.now) }
{
    let from = frames_size(format, place);
    let size = frames_size(format, frames);
    little::bytes_from(sound, from, size)
}

// The sound of the song at index i of a side, that very part of its sound.
fn song_sound(made: Record, sound: &[u8], i: usize) -> &[u8]
    requires { i < 64 }
    ensures part { result.now ≡ sound_at made sound.now i }
    ensures lent { result.ref_ptr.0 ≡ sound.entry.ref_ptr.0 }
    ensures place { result.ref_ptr.1 ≡ sound.entry.ref_ptr.1
        + min (bytes_of_frames made.format (get_or made.cues.list i no_cue).place.0) (length sound.now) }
{
    let cue = made.cues.list[i];
    let play = made.playlist.list[i];
    frames_at(made.format, sound, cue.place, play.length)
}

// The refusal of a number that is listed: the song at index i has it.
#[tactic(auto, unfolding(crate::specs::Adding::once_more))]
fn once_more(made: Record, sound: &[u8], i: usize, added: &[u8]) -> Result<(), Refusal>
    requires { i < 64 }
    ensures answer { result ≡ once_more (sound_at made sound.now i) added.now }
{
    if little::same_bytes(song_sound(made, sound, i), added) {
        return Err(Refusal::AlreadyListed);
    }
    Err(Refusal::SongEmptyOrDifferent)
}

// The verdict on a song that suits a side: whether its number is listed, then whether it has place.
#[tactic(auto, using(crate::proofs::Placing::placing))]
fn settle_place(
    made: Record,
    sound: &[u8],
    frames: Frames,
    added: &[u8],
    number: Donation,
    limit: Frames,
) -> Result<(), Refusal>
    requires { (made.cues.count ≤ 64) × (is_side made ≡ true) }
    ensures answer { result ≡ decided (place_checks made sound.now frames added.now number limit) }
{
    if let Some(i) = tables::find_cue(made.cues, number) {
        return once_more(made, sound, i, added);
    }
    if !has_place(made, frames, limit) {
        return Err(Refusal::NoPlaceOnSide);
    }
    Ok(())
}

// The verdict on adding a song to a side: both as they were read, each with its sound.
#[tactic(auto, unfolding(crate::specs::Adding::add_verdict, crate::specs::Side::side_read, units::specs::Checks::decided))]
fn settle(
    side: Record,
    sound: &[u8],
    song: Record,
    added: &[u8],
    number: Donation,
    limit: Frames,
) -> Result<(), Refusal>
    requires { (side.cues.count ≤ 64) × (side.playlist.count ≤ 64) }
    ensures answer { result ≡ add_verdict (Ok side) sound.now (Ok song) added.now number limit }
{
    if !is_side(side) {
        return Err(Refusal::NotASide);
    }
    if !song_suits(side.format, song.format) {
        return Err(Refusal::FormatWrong);
    }
    if song.frames.0 < 1 {
        return Err(Refusal::SongEmptyOrDifferent);
    }
    settle_place(side, sound, song.frames, added, number, limit)
}

// ---- the new side

// The record of a side with one song more at the end.
#[tactic(auto, using(crate::proofs::Placing::singing))]
fn with_song(made: Record, number: Donation, frames: Frames) -> Record
    requires made_value { (is_side made ≡ true) × (made.cues.count < 64) × (made.playlist.count ≤ 64) }
    requires frames_bound { made.frames.0 + frames.0 < 4294967296 }
    ensures answer { result ≡ with_song made number frames }
{
    let end = made.frames;
    let cue = Cue {
        name: number,
        position: end,
        place: end,
    };
    let play = Play {
        name: number,
        length: frames,
        times: 1,
    };
    Record {
        frames: Frames(end.0 + frames.0),
        cues: tables::with_cue(made.cues, cue),
        playlist: tables::with_play(made.playlist, play),
        ..made
    }
}

// Writes a side, whose titles and texts are those of a list and whose sound comes in two parts. The texts go
// from the list to the new file as they stand, with no buffer between.
#[tactic(auto, using(crate::proofs::Adding::carrying))]
fn join(
    made: Record,
    list: &[u8],
    lost: bool,
    sound: &[u8],
    added: &[u8],
    out: &mut [u8],
) -> Result<BytePlace, Refusal>
    requires { WithList made list.now lost }
    ensures answer { result ≡ writing made (texts_of (entries_in list.now))
        (sound.now ++ added.now) (length out.old) }
    ensures buffer { out.new ≡ holding (written_verdict result) (file_of made (texts_of (entries_in list.now))
        (sound.now ++ added.now)) out.old }
{
    let titled = rules::with_titles(made, titles::titles_in(list, lost));
    writer::write_joined(titled, true, list, sound, added, out)
}

// Adds a song to a side: the new side is written from the start of a lent buffer.
pub fn add(
    side: &[u8],
    song: &[u8],
    number: Donation,
    limit: Frames,
    out: &mut [u8],
) -> Result<BytePlace, Refusal>
    ensures answer { result ≡ adding side.now song.now number limit (length out.old) }
    ensures buffer { out.new
        ≡ holding (written_verdict result) (new_file side.now song.now number) out.old }
{
    let sent = reader::open(song)?;
    let Ok(old) = reader::open(side) else {
        return Err(Refusal::NotASide);
    };
    let sound = riff::part(side, old.sound, b"");
    let added = riff::part(song, sent.sound, b"");
    settle(old.made, sound, sent.made, added, number, limit)?;
    let made = with_song(old.made, number, sent.made.frames);
    let list = riff::part(side, old.titles, b"");
    join(made, list, riff::pad_lost(old.titles), sound, added, out)
}

// ---- an empty side

// The record of an empty side.
#[tactic(auto, unfolding(crate::specs::Adding::empty_side))]
fn empty_record(channels: u16, rate: u32) -> Record
    requires { channels ≤ 2 }
    ensures answer { result ≡ empty_side channels rate }
{
    rules::bare(formats::plain(channels, rate, 16), Frames(0))
}

// Writes an empty side of some channels and a rate, from the start of a lent buffer.
#[tactic(auto, using(crate::proofs::Adding::emptying))]
pub fn empty(channels: u16, rate: u32, out: &mut [u8]) -> Result<BytePlace, Refusal>
    ensures answer { result ≡ writing (empty_side channels rate) [] [] (length out.old) }
    ensures buffer { out.new ≡ holding (written_verdict result) (file_of (empty_side channels rate) [] []) out.old }
{
    // So that the align fits; more channels are refused as writing refuses them.
    if 2 < channels {
        return Err(Refusal::FormatWrong);
    }
    writer::write(empty_record(channels, rate), b"", b"", out)
}
