// What the chunks `cue ` and `plst` say, the rules that they must keep, one entry more, and their bytes,
// as they are written.
//
// As in `formats`, a chunk has a value, a form and a rule.
#![tactic(auto)]

ghost use Rattle.std.specs.Prelude.{◌≡◌, false, ℕ, List, MatchOption, map, ◌++◌, ◌+◌, ◌*◌, ◌%◌, ◌≤◌, ◌<◌, length};
ghost use Rattle.little.specs.Numbers.{bytes_of};
ghost use Rattle.little.specs.Writing.{Put};
ghost use Rattle.lists.specs.Among.{index_in, has, place_in};
ghost use Rattle.lists.specs.Turns.{values};
ghost use Rattle.codes.specs.Codes.{code_bytes};
ghost use Rattle.codes.specs.declared.Code.TheVariants.{Data};
ghost use Rattle.tables.specs.Cues.{no_cues, cue_at, plain_cue, cues_of, cues_form, name_of, place_of, names_in, cues_rule};
ghost use Rattle.tables.specs.Plays.{no_plays, play_at, plays_of, plays_form, plays_from, playable, all_playable, plays_rule};
ghost use Rattle.tables.specs.Tables.{held, table_form};
ghost use Rattle.tables.specs.More.{cues_with, plays_with};
ghost use Rattle.tables.specs.Bytes.{entry_bytes, table_bytes, cue_bytes, cues_bytes, play_bytes, plays_bytes, cue-long, play-long, cue-small, play-small};

use codes::Code;
use units::{Donation, Frames};

// The most entries that a table may have.
pub const MOST: u32 = 64;

// An entry of a table: how many bytes it has, how it is read of bytes, and how its bytes are put.
trait Entry: Copy {
    ghost read: { List ℕ → ℕ → Self };

    ghost written: { Self → List ℕ };

    ghost SIZE: { ℕ };

    const SIZE: usize;

    // The entry at a place.
    fn read_at(bytes: &[u8], at: usize) -> Self
        requires { at ≤ 4 + 24 * 64 }
        ensures answer { result ≡ read bytes.now at };

    // Puts the entry.
    fn put_at(self, out: &mut [u8], at: usize)
        requires { at + SIZE ≤ length out.old }
        ensures buffer { Put out.old at (written self) out.new };

    ghost fixed: { (entry : Self) → length (written entry) ≡ SIZE };

    ghost small: { SIZE ≤ 24 };
}

// A cue point: a song's number, its position in the order of playing, and its place in the sound.
#[derive(Clone, Copy)]
pub struct Cue {
    pub name: Donation,
    pub position: Frames,
    pub place: Frames,
}

impl Entry for Cue {
    ghost read = { cue_at };

    ghost written = { cue_bytes };

    ghost SIZE = { 24 };

    const SIZE: usize = 24;

    // The cue point at a place.
    #[tactic(auto, unfolding(crate::specs::Cues::cue_at))]
    fn read_at(bytes: &[u8], at: usize) -> Cue {
        Cue {
            name: Donation(little::u32_or_zero(bytes, at)),
            position: Frames(little::u32_or_zero(bytes, at + 4)),
            place: Frames(little::u32_or_zero(bytes, at + 20)),
        }
    }

    // Puts a cue point.
    fn put_at(self, out: &mut [u8], at: usize) {
        put_name(out, at, self);
        put_place(out, at + 12, self);
    }

    ghost fixed = { cue-long };

    ghost small = { cue-small };
}

// A cue table; past the count it is zero. This and the playlist are two structs, and the functions that make one of
// each stand twice, as an array of a type parameter gets no proof. The whole array is there beside its count, since the
// library has no heap and C lends and gets all of it. The count has no bound in the type: a record that is lent to
// `write` may have any, and is then refused 12 or 13.
#[derive(Clone, Copy)]
pub struct Cues {
    pub count: u32,
    pub list: [Cue; 64],
}

// A playlist entry: a cue's name, how many frames to play from there, and how often.
#[derive(Clone, Copy)]
pub struct Play {
    pub name: Donation,
    pub length: Frames,
    pub times: u32,
}

impl Entry for Play {
    ghost read = { play_at };

    ghost written = { play_bytes };

    ghost SIZE = { 12 };

    const SIZE: usize = 12;

    // The playlist entry at a place.
    #[tactic(auto, unfolding(crate::specs::Plays::play_at))]
    fn read_at(bytes: &[u8], at: usize) -> Play {
        Play {
            name: Donation(little::u32_or_zero(bytes, at)),
            length: Frames(little::u32_or_zero(bytes, at + 4)),
            times: little::u32_or_zero(bytes, at + 8),
        }
    }

    // Puts a playlist entry.
    fn put_at(self, out: &mut [u8], at: usize) {
        little::put_u32(out, at, self.name.0);
        little::put_u32(out, at + 4, self.length.0);
        little::put_u32(out, at + 8, self.times);
    }

    ghost fixed = { play-long };

    ghost small = { play-small };
}

// A playlist; past the count it is zero.
#[derive(Clone, Copy)]
pub struct Playlist {
    pub count: u32,
    pub list: [Play; 64],
}

// The entries of a table that are read: no more than there is room for.
#[tactic(auto, using(std::proofs::lemmas::Bool::Decides::nat_tests), unfolding(crate::specs::Tables::held))]
pub fn held_of(count: u32) -> usize
    ensures answer { result ≡ held count }
    ensures bound { result ≤ 64 }
{
    count.min(MOST) as usize
}

// ---- both tables

// Reads the entries of a table, as many as there are places for. Over `iter_mut`, with the place of the next
// entry carried on, cues take twice as long.
fn read_entries<E: Entry>(bytes: &[u8], entries: &mut [E])
    requires { length entries.old ≤ 64 }
    ensures answer { entries.new ≡ values (λ i. E.read bytes.now (4 + E.SIZE * i)) 0 (length entries.old) }
{
    for i in 0..entries.len() {
        entries[i] = E::read_at(bytes, 4 + E::SIZE * i);
    }
}

// Whether a table has at most 64 entries and nothing more.
#[tactic(auto, using(std::proofs::lemmas::Bool::Decides::nat_tests), unfolding(crate::specs::Tables::table_form, crate::specs::Tables::count_in))]
fn table_form<E: Entry>(bytes: &[u8]) -> bool
    ensures answer { result ≡ table_form E.SIZE bytes.now }
{
    let count = little::u32_or_zero(bytes, 0);
    count <= MOST && bytes.len() == 4 + E::SIZE * count as usize
}

// The bytes that a table takes.
fn table_size<E: Entry>(count: u32) -> usize
    ensures answer { result ≡ 4 + E.SIZE * held count }
{
    4 + E::SIZE * held_of(count)
}

// Puts entries, one behind the other.
fn put_entries<E: Entry>(out: &mut [u8], at: usize, entries: &[E])
    requires { (length entries.now ≤ 64) × (at + E.SIZE * length entries.now ≤ length out.old) }
    ensures buffer { Put out.old at (entry_bytes E.written entries.now) out.new }
{
    let mut next = at;
    for entry in entries {
        entry.put_at(out, next);
        next += E::SIZE;
    }
}

// Puts a table: its count, and the entries that it counts of a list with room for 64.
fn put_table<E: Entry>(out: &mut [u8], at: usize, count: u32, list: &[E])
    requires room { length list.now ≡ 64 }
    requires bytes_fit { at + length (table_bytes E.written count list.now) ≤ length out.old }
    ensures buffer { Put out.old at (table_bytes E.written count list.now) out.new }
{
    little::put_u32(out, at, count);
    put_entries(out, at + 4, &list[..held_of(count)]);
}

// ---- cues

// A table without cues.
pub fn no_cues() -> Cues
    ensures answer { result ≡ no_cues }
{
    let none = Cue {
        name: Donation(0),
        position: Frames(0),
        place: Frames(0),
    };
    Cues {
        count: 0,
        list: [none; 64],
    }
}

// What a `cue ` says.
#[tactic(auto, using(crate::proofs::Back::tabling))]
pub fn cues_of(bytes: &[u8]) -> Cues
    ensures answer { result ≡ cues_of bytes.now }
{
    let count = little::u32_or_zero(bytes, 0);
    let mut list = no_cues().list;
    read_entries(bytes, &mut list[..held_of(count)]);
    Cues { count, list }
}

// Whether a cue point counts from the start of the data.
#[tactic(auto, using(std::proofs::lemmas::Bool::Decides::nat_tests), unfolding(crate::specs::Cues::plain_cue))]
fn plain_cue(bytes: &[u8], at: usize) -> bool
    requires { at ≤ 4 + 24 * 64 }
    ensures answer { result ≡ plain_cue bytes.now at }
{
    codes::is_at(bytes, at + 8, Code::Data)
        && little::u32_or_zero(bytes, at + 12) == 0
        && little::u32_or_zero(bytes, at + 16) == 0
}

// Whether a `cue ` has at most 64 cue points, nothing more, and each counts from the start of the data.
#[tactic(auto, using(crate::proofs::Forms::forming, lists::proofs::Laws::holding))]
pub fn cues_form(bytes: &[u8]) -> bool
    ensures answer { result ≡ cues_form bytes.now }
{
    if !table_form::<Cue>(bytes) {
        return false;
    }
    for i in 0..held_of(little::u32_or_zero(bytes, 0)) {
        if !plain_cue(bytes, 4 + 24 * i) {
            return false;
        }
    }
    true
}

// The names of cues, as plain numbers. By `map` on the array a rule takes up to twice as long.
pub fn names_of(list: [Cue; 64]) -> [u32; 64]
    ensures answer { result ≡ map name_of list }
{
    let mut names = [0u32; 64];
    for (i, cue) in list.iter().enumerate() {
        names[i] = cue.name.0;
    }
    names
}

// The places of cues, as plain numbers; a loop for the same reason.
fn places_of(list: [Cue; 64]) -> [u32; 64]
    ensures answer { result ≡ map place_of list }
{
    let mut places = [0u32; 64];
    for (i, cue) in list.iter().enumerate() {
        places[i] = cue.place.0;
    }
    places
}

// Whether the names of the cues differ, and their places are in the sound.
#[tactic(auto, using(crate::proofs::Rules::ruling))]
pub fn cues_rule(cues: Cues, frames: Frames) -> bool
    ensures answer { result ≡ cues_rule cues frames }
{
    if MOST < cues.count {
        return false;
    }
    let n = held_of(cues.count);
    let names = names_of(cues.list);
    let places = places_of(cues.list);
    lists::all_differ(&names[..n]) && lists::all_below(&places[..n], frames.0)
}

// The first cue of a name, by its index, and none where no cue has it.
pub fn find_cue(cues: Cues, name: Donation) -> Option<usize>
    ensures answer { result ≡ place_in name.0 (names_in cues) }
    ensures place { MatchOption result (has name.0 (names_in cues) ≡ false) (λ i. (i ≡ index_in name.0 (names_in cues)) × (i < length (names_in cues)) × (i < held cues.count) × (i < 64)) }
{
    let n = held_of(cues.count);
    let names = names_of(cues.list);
    lists::find(&names[..n], name.0)
}

// ---- playlist

// A playlist without entries.
pub fn no_plays() -> Playlist
    ensures answer { result ≡ no_plays }
{
    let none = Play {
        name: Donation(0),
        length: Frames(0),
        times: 0,
    };
    Playlist {
        count: 0,
        list: [none; 64],
    }
}

// What a `plst` says.
#[tactic(auto, using(crate::proofs::Back::tabling))]
pub fn plays_of(bytes: &[u8]) -> Playlist
    ensures answer { result ≡ plays_of bytes.now }
{
    let count = little::u32_or_zero(bytes, 0);
    let mut list = no_plays().list;
    read_entries(bytes, &mut list[..held_of(count)]);
    Playlist { count, list }
}

// Whether a `plst` has at most 64 entries and nothing more.
#[tactic(auto, unfolding(crate::specs::Plays::plays_form))]
pub fn plays_form(bytes: &[u8]) -> bool
    ensures answer { result ≡ plays_form bytes.now }
{
    table_form::<Play>(bytes)
}

// Whether an entry can be played from a place.
#[tactic(auto, using(std::proofs::lemmas::Bool::Decides::nat_tests), unfolding(crate::specs::Plays::plays_from))]
fn plays_from(play: Play, place: Frames, frames: Frames) -> bool
    ensures answer { result ≡ plays_from place frames play }
{
    1 <= play.length.0
        && u64::from(place.0) + u64::from(play.length.0) <= u64::from(frames.0)
        && 1 <= play.times
}

// Whether an entry can be played. Its cue is looked up by its name; its place is read from the cue itself.
#[tactic(auto, using(crate::proofs::Rules::playing))]
fn playable(play: Play, names: &[u32], cues: &Cues, frames: Frames) -> bool
    requires { names.now ≡ names_in cues.now }
    ensures answer { result ≡ playable cues.now frames play }
{
    match lists::find(names, play.name.0) {
        Some(found) => plays_from(play, cues.list[found].place, frames),
        None => false,
    }
}

// Whether each entry can be played.
#[tactic(auto, using(crate::proofs::Rules::played))]
fn all_playable(list: &[Play], names: &[u32], cues: &Cues, frames: Frames) -> bool
    requires { names.now ≡ names_in cues.now }
    ensures answer { result ≡ all_playable cues.now frames list.now (length list.now) }
{
    for play in list {
        if !playable(*play, names, cues, frames) {
            return false;
        }
    }
    true
}

// At most 64 entries, each of which can be played.
#[tactic(auto, using(crate::proofs::Rules::ruling))]
pub fn plays_rule(playlist: Playlist, cues: Cues, frames: Frames) -> bool
    ensures answer { result ≡ plays_rule playlist cues frames }
{
    if MOST < playlist.count {
        return false;
    }
    let list = &playlist.list[..playlist.count as usize];
    let names = names_of(cues.list);
    all_playable(list, &names[..held_of(cues.count)], &cues, frames)
}

// ---- one entry more

// A cue table with one cue more, behind the others.
#[tactic(auto, unfolding(crate::specs::More::cues_with))]
pub fn with_cue(cues: Cues, cue: Cue) -> Cues
    requires { cues.count < 64 }
    ensures answer { result ≡ cues_with cues cue }
{
    let mut more = cues;
    more.list[cues.count as usize] = cue;
    more.count += 1;
    more
}

// A playlist with one entry more, behind the others.
#[tactic(auto, unfolding(crate::specs::More::plays_with))]
pub fn with_play(playlist: Playlist, play: Play) -> Playlist
    requires { playlist.count < 64 }
    ensures answer { result ≡ plays_with playlist play }
{
    let mut more = playlist;
    more.list[playlist.count as usize] = play;
    more.count += 1;
    more
}

// ---- writing

// The bytes that a `cue ` takes.
#[tactic(auto, using(crate::proofs::Putting::sizing))]
pub fn cues_size(cues: Cues) -> usize
    ensures answer { result ≡ length (cues_bytes cues) }
    ensures bound { result ≤ 1540 }
    ensures even { result % 2 ≡ 0 }
{
    table_size::<Cue>(cues.count)
}

// Puts the name, the position and the chunk code of a cue point.
fn put_name(out: &mut [u8], at: usize, cue: Cue)
    requires { at + 12 ≤ length out.old }
    ensures buffer { Put out.old at
        (bytes_of 4 cue.name.0 ++ (bytes_of 4 cue.position.0 ++ code_bytes Data)) out.new }
{
    little::put_u32(out, at, cue.name.0);
    little::put_u32(out, at + 4, cue.position.0);
    codes::put(out, at + 8, Code::Data);
}

// Puts the chunk start, the block start and the place of a cue point.
fn put_place(out: &mut [u8], at: usize, cue: Cue)
    requires { at + 12 ≤ length out.old }
    ensures buffer { Put out.old at (bytes_of 4 0 ++ (bytes_of 4 0 ++ bytes_of 4 cue.place.0)) out.new }
{
    little::put_u32(out, at, 0);
    little::put_u32(out, at + 4, 0);
    little::put_u32(out, at + 8, cue.place.0);
}

// Puts a `cue `.
#[tactic(auto, unfolding(crate::specs::Bytes::cues_bytes))]
pub fn put_cues(out: &mut [u8], at: usize, cues: Cues)
    requires { at + length (cues_bytes cues) ≤ length out.old }
    ensures buffer { Put out.old at (cues_bytes cues) out.new }
{
    put_table(out, at, cues.count, &cues.list);
}

// The bytes that a `plst` takes.
#[tactic(auto, using(crate::proofs::Putting::sizing))]
pub fn plays_size(playlist: Playlist) -> usize
    ensures answer { result ≡ length (plays_bytes playlist) }
    ensures bound { result ≤ 772 }
    ensures even { result % 2 ≡ 0 }
{
    table_size::<Play>(playlist.count)
}

// Puts a `plst`.
#[tactic(auto, unfolding(crate::specs::Bytes::plays_bytes))]
pub fn put_plays(out: &mut [u8], at: usize, playlist: Playlist)
    requires { at + length (plays_bytes playlist) ≤ length out.old }
    ensures buffer { Put out.old at (plays_bytes playlist) out.new }
{
    put_table(out, at, playlist.count, &playlist.list);
}
