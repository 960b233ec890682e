// Writing a WAVE file: `fmt `, `fact` for ADPCM, `cue `, `plst` and the list of titles where there are
// entries, and `data`.
//
// All is settled before the first store, so that a refusal leaves the lent buffer as it was. The sound,
// which may come in two parts, is copied once and not looked at.
#![tactic(auto)]

ghost use Rattle.std.specs.Prelude.{◌≡◌, true, cond, ◌++◌, ◌+◌, ◌≤◌, length, Ok};
ghost use Rattle.units.specs.Refusals.{file_limit};
ghost use Rattle.codes.specs.declared.Code.TheVariants as code;
ghost use Rattle.little.specs.Writing.{Put, front, holding};
ghost use Rattle.formats.specs.Format.{format_rule};
ghost use Rattle.formats.specs.Frames.{needs_fact};
ghost use Rattle.formats.specs.Bytes.{format_bytes};
ghost use Rattle.titles.specs.Writing.{Short};
ghost use Rattle.rules.specs.Written.{RecordFits};
ghost use Rattle.riff.specs.Laying.{piece, piece_bytes, part_bytes, extent_if};
ghost use Rattle.writer.specs.File.{fact_chunk, cues_chunk, plays_chunk, titles_chunk, file_of, until_tables, tables_of};
ghost use Rattle.writer.specs.File.{writing_by, writing, written_verdict};

use codes::Code;
use formats::Format;
use rules::Record;
use tables::{Cues, Playlist};
use titles::Titles;
use units::{BytePlace, Frames, Refusal};

// ---- how long the file is

// The bytes of a chunk with its head; none where it is left out.
fn extent(there: bool, size: usize) -> usize
    requires { size ≤ 34308 }
    ensures answer { result ≡ cond there (8 + size) 0 }
    ensures bound { result ≤ 34316 }
{
    if there {
        return 8 + size;
    }
    0
}

// The bytes of a sound in two parts. Two slices are together shorter than a usize counts.
fn sound_size(first: &[u8], second: &[u8]) -> usize
    ensures answer { result ≡ length (first.now ++ second.now) }
{
    first.len() + second.len()
}

// The length of the file.
fn file_size(made: Record, texts: &[u8], first: &[u8], second: &[u8]) -> usize
    requires second_len_bound { length (first.now ++ second.now) ≤ file_limit }
    requires short { Short texts.now made.titles.list made.titles.count }
    ensures answer { result ≡ length (file_of made texts.now (first.now ++ second.now)) }
{
    let fmt = formats::format_size(made.format);
    let fact = extent(formats::needs_fact(made.format), 4);
    let cue = extent(1 <= made.cues.count, tables::cues_size(made.cues));
    let plst = extent(1 <= made.playlist.count, tables::plays_size(made.playlist));
    let adtl = extent(
        1 <= made.titles.count,
        titles::list_size(texts, made.titles),
    );
    let n = sound_size(first, second);
    12 + 8 + fmt + fact + cue + plst + adtl + 8 + n + n % 2
}

// The answer to writing a record, whose titles are right or not, before a byte is put: 9 to 13, then 21,
// then 1, then 14.
#[tactic(auto, using(crate::proofs::Settling::settling))]
fn settle(
    made: Record,
    right: bool,
    texts: &[u8],
    first: &[u8],
    second: &[u8],
    room: usize,
) -> Result<BytePlace, Refusal>
    requires { right ≡ true → Short texts.now made.titles.list made.titles.count }
    ensures answer { result ≡ writing_by right made texts.now (first.now ++ second.now) room }
{
    let sound = sound_size(first, second);
    rules::record_verdict(made, BytePlace(sound))?;
    if !right {
        return Err(Refusal::TitlesWrong);
    }
    // So that the sum in `file_size` fits.
    if units::LIMIT < sound {
        return Err(Refusal::LengthOutOfRange);
    }
    let size = file_size(made, texts, first, second);
    if units::LIMIT < size {
        return Err(Refusal::LengthOutOfRange);
    }
    if room < size {
        return Err(Refusal::OutputTooSmall);
    }
    Ok(BytePlace(size))
}

// ---- the chunks; each function puts one at a place, where it is written, and gives the place behind it. One function
// to which closures said each chunk's size and bytes would be no plainer.

fn put_format(out: &mut [u8], at: usize, format: Format) -> usize
    requires format_value { format_rule format ≡ true }
    requires format_in_bounds { at + length (piece_bytes (piece code.Format (format_bytes format))) ≤ length out.old }
    ensures answer { result ≡ at + length (piece_bytes (piece code.Format (format_bytes format))) }
    ensures buffer { Put out.old at (piece_bytes (piece code.Format (format_bytes format))) out.new }
{
    let size = formats::format_size(format);
    riff::put_head(out, at, Code::Format, size as u32);
    formats::put_format(out, at + 8, format);
    at + 8 + size
}

fn put_fact(out: &mut [u8], at: usize, format: Format, frames: Frames) -> usize
    requires { at + length (part_bytes code.Fact (fact_chunk format frames)) ≤ length out.old }
    ensures answer { result ≡ at + length (part_bytes code.Fact (fact_chunk format frames)) }
    ensures buffer { Put out.old at (part_bytes code.Fact (fact_chunk format frames)) out.new }
{
    let needed = formats::needs_fact(format);
    if !needed {
        return at;
    }
    riff::put_head(out, at, Code::Fact, 4);
    formats::put_fact(out, at + 8, frames);
    at + 12
}

fn put_cues(out: &mut [u8], at: usize, cues: Cues) -> usize
    requires { at + length (part_bytes code.Cue (cues_chunk cues)) ≤ length out.old }
    ensures answer { result ≡ at + length (part_bytes code.Cue (cues_chunk cues)) }
    ensures buffer { Put out.old at (part_bytes code.Cue (cues_chunk cues)) out.new }
{
    if cues.count < 1 {
        return at;
    }
    let size = tables::cues_size(cues);
    riff::put_head(out, at, Code::Cue, size as u32);
    tables::put_cues(out, at + 8, cues);
    at + 8 + size
}

fn put_plays(out: &mut [u8], at: usize, playlist: Playlist) -> usize
    requires { at + length (part_bytes code.Playlist (plays_chunk playlist)) ≤ length out.old }
    ensures answer { result ≡ at + length (part_bytes code.Playlist (plays_chunk playlist)) }
    ensures buffer { Put out.old at (part_bytes code.Playlist (plays_chunk playlist)) out.new }
{
    if playlist.count < 1 {
        return at;
    }
    let size = tables::plays_size(playlist);
    riff::put_head(out, at, Code::Playlist, size as u32);
    tables::put_plays(out, at + 8, playlist);
    at + 8 + size
}

fn put_titles(out: &mut [u8], at: usize, texts: &[u8], titles: Titles) -> usize
    requires short { Short texts.now titles.list titles.count }
    requires titles_in_bounds { at + length (part_bytes code.Listing (titles_chunk texts.now titles)) ≤ length out.old }
    ensures answer { result ≡ at + length (part_bytes code.Listing (titles_chunk texts.now titles)) }
    ensures buffer { Put out.old at (part_bytes code.Listing (titles_chunk texts.now titles)) out.new }
{
    if titles.count < 1 {
        return at;
    }
    let size = titles::list_size(texts, titles);
    riff::put_head(out, at, Code::Listing, size as u32);
    titles::put_list(out, at + 8, texts, titles);
    at + 8 + size
}

// Puts the two parts of a sound, one behind the other.
#[tactic(auto, using(little::proofs::Filling::behind))]
fn put_joined(out: &mut [u8], at: usize, first: &[u8], second: &[u8])
    requires { at + length (first.now ++ second.now) ≤ length out.old }
    ensures buffer { Put out.old at (first.now ++ second.now) out.new }
{
    little::put_bytes(out, at, first);
    little::put_bytes(out, at + first.len(), second);
}

fn put_sound(out: &mut [u8], at: usize, first: &[u8], second: &[u8])
    requires second_len_bound { length (first.now ++ second.now) ≤ file_limit }
    requires second_in_bounds { at + length (piece_bytes (piece code.Data (first.now ++ second.now))) ≤ length out.old }
    ensures buffer { Put out.old at
        (piece_bytes (piece code.Data (first.now ++ second.now))) out.new }
{
    let size = sound_size(first, second);
    riff::put_head(out, at, Code::Data, size as u32);
    put_joined(out, at + 8, first, second);
    riff::put_pad(out, at + 8 + size, size);
}

// ---- the file

// Puts what stands before the tables of a file of some size: the first twelve bytes, `fmt ` and `fact`.
fn put_opening(out: &mut [u8], size: u32, format: Format, frames: Frames) -> usize
    requires format_value { format_rule format ≡ true }
    requires le_size { 12 ≤ size }
    requires frames_in_bounds { length (until_tables size format frames) ≤ length out.old }
    ensures answer { result ≡ length (until_tables size format frames) }
    ensures buffer { Put out.old 0 (until_tables size format frames) out.new }
{
    riff::put_riff(out, size - 8);
    let next = put_format(out, 12, format);
    put_fact(out, next, format, frames)
}

// Puts the two tables.
fn put_tables(out: &mut [u8], at: usize, cues: Cues, playlist: Playlist) -> usize
    requires { at + length (tables_of cues playlist) ≤ length out.old }
    ensures answer { result ≡ at + length (tables_of cues playlist) }
    ensures buffer { Put out.old at (tables_of cues playlist) out.new }
{
    let next = put_cues(out, at, cues);
    put_plays(out, next, playlist)
}

// Puts the whole file, of which it is settled that it has so many bytes.
#[tactic(auto, using(crate::proofs::Files::filing))]
fn put_file(
    made: Record,
    texts: &[u8],
    first: &[u8],
    second: &[u8],
    size: BytePlace,
    out: &mut [u8],
)
    requires short { Short texts.now made.titles.list made.titles.count }
    requires out_value { writing_by true made texts.now (first.now ++ second.now) (length out.old) ≡ Ok size }
    ensures buffer { out.new ≡ front (file_of made texts.now (first.now ++ second.now)) out.old }
{
    let tables = put_opening(out, size.0 as u32, made.format, made.frames);
    let list_at = put_tables(out, tables, made.cues, made.playlist);
    let data_at = put_titles(out, list_at, texts, made.titles);
    put_sound(out, data_at, first, second);
}

// Writes a record, the texts of its titles and its sound as a file, from the start of a lent buffer. That
// the record fits its fields, by its types, is what `Back` and `SameNumber` of specs/Demands.antt ask of it.
pub fn write(made: Record, texts: &[u8], sound: &[u8], out: &mut [u8]) -> Result<BytePlace, Refusal>
    ensures answer { result ≡ writing made texts.now sound.now (length out.old) }
    ensures buffer { out.new
        ≡ holding (written_verdict result) (file_of made texts.now sound.now) out.old }
    ensures fits { RecordFits made }
{
    let right = titles::titles_right(texts, made.titles, made.cues);
    write_joined(made, right, texts, sound, b"", out)
}

// The same of a record whose titles are known to be right or not, wherever their texts stand, and with a
// sound in two parts, one behind the other, as adding to a side has it.
#[tactic(auto, using(crate::proofs::Files::answering))]
pub fn write_joined(
    made: Record,
    right: bool,
    texts: &[u8],
    first: &[u8],
    second: &[u8],
    out: &mut [u8],
) -> Result<BytePlace, Refusal>
    requires { right ≡ true → Short texts.now made.titles.list made.titles.count }
    ensures answer { result
        ≡ writing_by right made texts.now (first.now ++ second.now) (length out.old) }
    ensures buffer { out.new ≡ holding (written_verdict result)
        (file_of made texts.now (first.now ++ second.now)) out.old }
    ensures fits { RecordFits made }
{
    let size = settle(made, right, texts, first, second, out.len())?;
    put_file(made, texts, first, second, size, out);
    Ok(size)
}
