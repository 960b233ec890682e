// The chunks of a RIFF file: its header, the walk over the chunks from byte 12, and the directory of
// those that a WAVE file is read by; and the heads of a file and of a chunk, and its pad, as they are
// written.
//
// A step of the walk is a chunk's place or the refusal that ends the walk.
#![tactic(auto)]

ghost use Rattle.std.specs.Prelude.{◌≡◌, ◌+◌, ◌≤◌, min, length};
ghost use Rattle.little.specs.Writing.{Put};
ghost use Rattle.riff.specs.Chunks.{head_verdict, list_kind, kind_at, pad_after, pad_size, place_at, pad_lost, spot_of, early, starts_as_waves, wave_list, chunk_at, is_kept, keep_titles, keep};
ghost use Rattle.riff.specs.Walk.{walk_of, directory_of, part_of, by_spot, start_of};
ghost use Rattle.riff.specs.Laying.{head_bytes, pad_bytes, riff_bytes};

use codes::Code;
use units::{BytePlace, Refusal};

// What a chunk is to the walk.
#[derive(Clone, Copy, PartialEq, Eq)]
pub enum Kind {
    Format,
    Sound,
    Fact,
    Cues,
    Plays,
    Titles,
    Listing,
    Other,
}

// The pad after a chunk's data: even data need none, and data that end with the file may lack it.
#[derive(Clone, Copy, PartialEq, Eq)]
pub enum Pad {
    NotNeeded,
    There,
    Absent,
}

// A chunk: what it is, whether its pad is there, where its data start, how many bytes they are, and where
// the next chunk starts. The two small fields stand first, which leaves one gap in memory and not two.
#[derive(Clone, Copy)]
pub struct Place {
    pub kind: Kind,
    pub pad: Pad,
    pub start: BytePlace,
    pub size: BytePlace,
    pub next: BytePlace,
}

// Where the chunks stand that a file is read by, if they were met; of the lists of titles the first, and whether
// another came. That stays a flag: the definition of the walk keeps the place of the first also where another came.
#[derive(Clone, Copy)]
pub struct Directory {
    pub format: Option<Place>,
    pub sound: Option<Place>,
    pub fact: Option<Place>,
    pub cues: Option<Place>,
    pub plays: Option<Place>,
    pub titles: Option<Place>,
    pub second: bool,
}

// Whether the length, the two codes and the size at the start of a file are right.
#[tactic(auto, unfolding(crate::specs::Chunks::head_verdict, units::specs::Checks::decided))]
fn head(file: &[u8]) -> Result<(), Refusal>
    ensures answer { result ≡ head_verdict file.now }
{
    if file.len() < 12 || units::LIMIT < file.len() {
        return Err(Refusal::LengthOutOfRange);
    }
    if !codes::is_at(file, 0, Code::Riff) || !codes::is_at(file, 8, Code::Wave) {
        return Err(Refusal::NotWave);
    }
    let size = little::u32_at(file, 4) as usize;
    if 8 + size != file.len() {
        return Err(Refusal::RiffSizeWrong);
    }
    Ok(())
}

// What the `LIST` at a place is: one of titles where its data start with `adtl`.
#[tactic(auto, unfolding(crate::specs::Chunks::list_kind))]
fn list_kind(file: &[u8], at: usize) -> Kind
    requires { at + 8 ≤ length file.now }
    ensures answer { result ≡ list_kind file.now at }
{
    if 4 <= little::u32_at(file, at + 4) && codes::is_at(file, at + 8, Code::Titles) {
        return Kind::Titles;
    }
    Kind::Listing
}

// What the chunk at a place is, by its code.
#[tactic(auto, unfolding(crate::specs::Chunks::kind_at))]
fn kind_at(file: &[u8], at: usize) -> Kind
    requires { at + 8 ≤ length file.now }
    ensures answer { result ≡ kind_at file.now at }
{
    if codes::is_at(file, at, Code::Format) {
        return Kind::Format;
    }
    if codes::is_at(file, at, Code::Data) {
        return Kind::Sound;
    }
    if codes::is_at(file, at, Code::Fact) {
        return Kind::Fact;
    }
    if codes::is_at(file, at, Code::Cue) {
        return Kind::Cues;
    }
    if codes::is_at(file, at, Code::Playlist) {
        return Kind::Plays;
    }
    if codes::is_at(file, at, Code::Listing) {
        return list_kind(file, at);
    }
    Kind::Other
}

// The pad after data of some size that end at a place, in a file so long: absent only where they end with it.
#[tactic(auto, unfolding(crate::specs::Chunks::pad_after))]
pub fn pad_after(size: usize, end: usize, long: usize) -> Pad
    ensures answer { result ≡ pad_after size end long }
{
    if size % 2 == 0 {
        return Pad::NotNeeded;
    }
    if end == long {
        return Pad::Absent;
    }
    Pad::There
}

// How many bytes a pad has.
pub fn pad_size(pad: Pad) -> usize
    ensures answer { result ≡ pad_size pad }
    ensures bound { result ≤ 1 }
{
    match pad {
        Pad::NotNeeded | Pad::Absent => 0,
        Pad::There => 1,
    }
}

// The chunk that starts at a place, where it fits the file.
#[tactic(auto, unfolding(crate::specs::Chunks::place_at))]
fn place_at(file: &[u8], at: BytePlace) -> Result<Place, Refusal>
    ensures answer { result ≡ place_at file.now at }
{
    let BytePlace(at) = at;
    if file.len() < 8 || file.len() - 8 < at {
        return Err(Refusal::ChunkPastTheEnd);
    }
    let size = little::u32_at(file, at + 4) as usize;
    let end = at + 8 + size;
    if file.len() < end {
        return Err(Refusal::ChunkPastTheEnd);
    }
    let pad = pad_after(size, end, file.len());
    Ok(Place {
        kind: kind_at(file, at),
        pad,
        start: BytePlace(at + 8),
        size: BytePlace(size),
        next: BytePlace(end + pad_size(pad)),
    })
}

// Where a chunk of some kind was met; nowhere for a kind of which the walk takes any number.
fn spot_of(seen: Directory, kind: Kind) -> Option<Place>
    ensures answer { result ≡ spot_of seen kind }
{
    match kind {
        Kind::Format => seen.format,
        Kind::Sound => seen.sound,
        Kind::Fact => seen.fact,
        Kind::Cues => seen.cues,
        Kind::Plays => seen.plays,
        Kind::Titles | Kind::Listing | Kind::Other => None,
    }
}

// Whether a chunk was met whose pad is absent.
pub fn pad_lost(spot: Option<Place>) -> bool
    ensures answer { result ≡ pad_lost spot }
{
    match spot {
        Some(place) => matches!(place.pad, Pad::Absent),
        None => false,
    }
}

// Whether a chunk is the sound, before any format.
fn too_early(seen: Directory, kind: Kind) -> bool
    ensures answer { result ≡ early seen kind }
{
    matches!(kind, Kind::Sound) && seen.format.is_none()
}

// Whether a chunk's data starts with `wavl`.
#[tactic(auto, unfolding(crate::specs::Chunks::starts_as_waves))]
fn starts_as_waves(file: &[u8], place: Place) -> bool
    ensures answer { result ≡ starts_as_waves file.now place }
{
    4 <= place.size.0 && codes::is_at(file, place.start.0, Code::WaveList)
}

// Whether a chunk is a list of waves.
fn wave_list(file: &[u8], place: Place) -> bool
    ensures answer { result ≡ wave_list file.now place place.kind }
{
    matches!(place.kind, Kind::Listing) && starts_as_waves(file, place)
}

// The chunk at a place, or the refusal that ends the walk there.
#[tactic(auto, unfolding(crate::specs::Chunks::chunk_at))]
pub fn chunk_at(file: &[u8], at: BytePlace, seen: Directory) -> Result<Place, Refusal>
    ensures answer { result ≡ chunk_at file.now at seen }
{
    let place = place_at(file, at)?;
    if spot_of(seen, place.kind).is_some() {
        return Err(Refusal::SecondOfItsKind);
    }
    if too_early(seen, place.kind) {
        return Err(Refusal::DataBeforeFormat);
    }
    if wave_list(file, place) {
        return Err(Refusal::WaveList);
    }
    Ok(place)
}

// Whether the directory has a spot for chunks of a kind.
fn is_kept(kind: Kind) -> bool
    ensures answer { result ≡ is_kept kind }
{
    !matches!(kind, Kind::Listing | Kind::Other)
}

// The directory with a list of titles more: its place where it is the first, else only that another came.
#[tactic(auto, unfolding(crate::specs::Chunks::keep_titles))]
fn kept_titles(seen: Directory, place: Place) -> Directory
    ensures answer { result ≡ keep_titles seen place }
{
    if seen.titles.is_some() {
        return Directory {
            second: true,
            ..seen
        };
    }
    Directory {
        titles: Some(place),
        ..seen
    }
}

// The directory with one chunk more.
fn kept(seen: Directory, place: Place) -> Directory
    ensures answer { result ≡ keep seen place place.kind }
{
    let here = Some(place);
    match place.kind {
        Kind::Format => Directory {
            format: here,
            ..seen
        },
        Kind::Sound => Directory {
            sound: here,
            ..seen
        },
        Kind::Fact => Directory { fact: here, ..seen },
        Kind::Cues => Directory { cues: here, ..seen },
        Kind::Plays => Directory {
            plays: here,
            ..seen
        },
        Kind::Titles => kept_titles(seen, place),
        Kind::Listing | Kind::Other => seen,
    }
}

// The walk over the chunks from byte 12. The directory is made anew only for a chunk that it keeps: to
// carry it over where it stays as it is would cost more than the rest of a turn. A turn is as long as its chunk
// says, so this is no `for`.
#[tactic(auto, using(crate::proofs::Walking::walking))]
fn walk(file: &[u8]) -> Result<Directory, Refusal>
    ensures answer { result ≡ walk_of file.now }
{
    let mut at = 12;
    let mut seen = Directory {
        format: None,
        sound: None,
        fact: None,
        cues: None,
        plays: None,
        titles: None,
        second: false,
    };
    while at < file.len() {
        let place = chunk_at(file, BytePlace(at), seen)?;
        at = place.next.0;
        if is_kept(place.kind) {
            seen = kept(seen, place);
        }
    }
    Ok(seen)
}

// The directory of a file, or why it has none: the refusals 1 to 7.
#[tactic(auto, unfolding(crate::specs::Walk::directory_of))]
pub fn chunks(file: &[u8]) -> Result<Directory, Refusal>
    ensures answer { result ≡ directory_of file.now }
{
    head(file)?;
    walk(file)
}

// A chunk's data, that very part of the file; of a chunk that is missing, what is lent in its place.
pub fn part<'a>(file: &'a [u8], spot: Option<Place>, absent: &'a [u8]) -> &'a [u8]
    ensures part { result.now ≡ part_of file.now spot absent.now }
    ensures lent { result.ref_ptr.0 ≡ by_spot spot file.entry.ref_ptr.0 absent.entry.ref_ptr.0 }
    ensures place { result.ref_ptr.1 ≡ by_spot spot (file.entry.ref_ptr.1 + min (start_of spot) (length file.now))
        absent.entry.ref_ptr.1 }
{
    match spot {
        Some(place) => little::bytes_from(file, place.start, place.size),
        None => absent,
    }
}

// ---- writing

// Puts a chunk's code and size at a place.
pub fn put_head(out: &mut [u8], at: usize, code: Code, size: u32)
    requires { at + 8 ≤ length out.old }
    ensures buffer { Put out.old at (head_bytes code size) out.new }
{
    codes::put(out, at, code);
    little::put_u32(out, at + 4, size);
}

// Puts the pad of a chunk of some size: a zero where the size is odd.
pub fn put_pad(out: &mut [u8], at: usize, size: usize)
    requires { at + length (pad_bytes size) ≤ length out.old }
    ensures buffer { Put out.old at (pad_bytes size) out.new }
{
    if size % 2 == 0 {
        return;
    }
    out[at] = 0;
}

// Puts the first twelve bytes of a file, whose size is that of all that follows the first eight.
pub fn put_riff(out: &mut [u8], size: u32)
    requires { 12 ≤ length out.old }
    ensures buffer { Put out.old 0 (riff_bytes size) out.new }
{
    put_head(out, 0, Code::Riff, size);
    codes::put(out, 8, Code::Wave);
}
