// A record as 906 words of 32 bits, as it travels through the C interface: tag, channels, rate, bits,
// align, samples per block, frames, number of cues, number of entries; 64 cues of three words each, and
// 64 entries of three words each; number of titles, and 128 titles of four words each.
#![tactic(auto)]

ghost use Rattle.std.specs.Prelude.{◌≡◌, refl, ℕ, List, true, ◌++◌, ◌+◌, ◌*◌, ◌≤◌, ◌<◌, length, replicate, slice_index_or};
ghost use Rattle.little.specs.Writing.{Put, front};
ghost use Rattle.tables.specs.Bytes.{entry_bytes};
ghost use Rattle.titles.specs.Titles.{no_titles};
ghost use Rattle.words.specs.Words.{head_words, cue_words, play_words, title_words, titles_words, table_words, record_words};
ghost use Rattle.words.specs.Words.{fields_fit, format_from, cue_from, cues_from, play_from, entries_from, title_from, titles_from, record_from};

use formats::Format;
use rules::Record;
use tables::{Cue, Cues, Play, Playlist};
use titles::{Title, Titles};
use units::{Donation, Frames, TextPlace};

// How many words a record has.
pub const WORDS: usize = 906;

// ---- a record put into words

// The words before the tables.
fn head_words(made: &Record) -> [u32; 9]
    ensures answer { result ≡ head_words made.now }
{
    let format = made.format;
    [
        format.tag.into(),
        format.channels.into(),
        format.rate,
        format.bits.into(),
        format.align.into(),
        format.samples.into(),
        made.frames.0,
        made.cues.count,
        made.playlist.count,
    ]
}

// Puts words at a place.
#[tactic(auto, using(little::proofs::Filling::put_part))]
fn put_words(out: &mut [u32], at: usize, words: &[u32])
    requires { at + length words.now ≤ length out.old }
    ensures buffer { Put out.old at words.now out.new }
{
    out[at..at + words.len()].copy_from_slice(words);
}

// What a record has a list of: a cue, a playlist entry or a title, each in N words.
trait Worded<const N: usize>: Copy {
    ghost words_of: { Self → List ℕ };

    ghost said_at: { List ℕ → ℕ → Self };

    // Its words.
    fn words(&self) -> [u32; N]
        ensures { result ≡ words_of self.now };

    // What the words at a place say.
    fn said(words: &[u32], at: usize) -> Self
        requires { at + N ≤ length words.now }
        ensures { result ≡ said_at words.now at };

    ghost all_long: { (x : Self) → length (words_of x) ≡ N };
}

impl Worded<3> for Cue {
    ghost words_of = { cue_words };

    ghost said_at = { cue_from };

    fn words(&self) -> [u32; 3] {
        [self.name.0, self.position.0, self.place.0]
    }

    fn said(words: &[u32], at: usize) -> Cue {
        Cue {
            name: Donation(words[at]),
            position: Frames(words[at + 1]),
            place: Frames(words[at + 2]),
        }
    }

    ghost all_long = { λ x. refl };
}

impl Worded<3> for Play {
    ghost words_of = { play_words };

    ghost said_at = { play_from };

    fn words(&self) -> [u32; 3] {
        [self.name.0, self.length.0, self.times]
    }

    fn said(words: &[u32], at: usize) -> Play {
        Play {
            name: Donation(words[at]),
            length: Frames(words[at + 1]),
            times: words[at + 2],
        }
    }

    ghost all_long = { λ x. refl };
}

impl Worded<4> for Title {
    ghost words_of = { title_words };

    ghost said_at = { title_from };

    fn words(&self) -> [u32; 4] {
        [self.kind, self.name.0, self.start.0, self.length.0]
    }

    fn said(words: &[u32], at: usize) -> Title {
        Title {
            kind: words[at],
            name: Donation(words[at + 1]),
            start: TextPlace(words[at + 2]),
            length: TextPlace(words[at + 3]),
        }
    }

    ghost all_long = { λ x. refl };
}

// Puts a list, its entries one behind the other.
#[tactic(auto, using(crate::proofs::Laws::entry_room))]
fn put_list<T: Worded<N>, const N: usize>(out: &mut [u32], at: usize, list: &[T])
    requires { at + N * length list.now ≤ length out.old }
    ensures buffer { Put out.old at (entry_bytes T.words_of list.now) out.new }
{
    for (i, entry) in list.iter().enumerate() {
        put_words(out, at + N * i, &entry.words());
    }
}

// Takes a list from words, its entries one behind the other from a place on.
#[tactic(auto, using(crate::proofs::Laws::entry_room))]
fn take_list<T: Worded<N>, const N: usize>(words: &[u32], at: usize, list: &mut [T])
    requires { at + N * length list.old ≤ length words.now }
    ensures entries { (k : ℕ) → k < length list.old → (x : T) → slice_index_or list.new k x ≡ T.said_at words.now (at + N * k) }
{
    for i in 0..list.len() {
        list[i] = T::said(words, at + N * i);
    }
}

// Puts the number of titles, and behind it the titles.
fn put_titles(out: &mut [u32], titles: &Titles)
    requires { 906 ≤ length out.old }
    ensures buffer { Put out.old 393 (titles_words titles.now) out.new }
{
    put_words(out, 393, &[titles.count]);
    put_list(out, 394, &titles.list);
}

// Puts a word n times from a place on.
#[tactic(auto, using(crate::proofs::Laws::same_put))]
fn put_same(out: &mut [u32], at: usize, n: usize, word: u32)
    requires { at + n ≤ length out.old }
    ensures buffer { Put out.old at (replicate n word) out.new }
{
    out[at..at + n].fill(word);
}

// Puts what stands before the titles.
fn put_before_titles(out: &mut [u32], made: &Record)
    requires { 906 ≤ length out.old }
    ensures buffer { Put out.old 0 (head_words made.now ++ table_words made.now) out.new }
{
    put_words(out, 0, &head_words(made));
    put_list(out, 9, &made.cues.list);
    put_list(out, 201, &made.playlist.list);
}

// Puts a record from the start of a lent buffer.
pub fn put_record(out: &mut [u32], made: Record)
    requires { 906 ≤ length out.old }
    ensures buffer { out.new ≡ front (record_words made) out.old }
{
    put_before_titles(out, &made);
    put_titles(out, &made.titles);
}

// The same for a record that has no titles. All 513 words of titles are then what their number is, and the list
// of them, the largest part of a record, is not touched.
pub fn put_untitled(out: &mut [u32], made: Record)
    requires { (906 ≤ length out.old) × (made.titles ≡ no_titles) }
    ensures buffer { out.new ≡ front (record_words made) out.old }
{
    put_before_titles(out, &made);
    put_same(out, 393, 513, made.titles.count);
}

// ---- a record taken from words

// Whether every word of a field of 16 bits fits it.
#[tactic(auto, unfolding(crate::specs::Words::fields_fit))]
pub fn fields_fit(words: &[u32]) -> bool
    requires { 906 ≤ length words.now }
    ensures answer { result ≡ fields_fit words.now }
{
    let fields = [words[0], words[1], words[3], words[4], words[5]];
    lists::all_below(&fields, 65536)
}

// The format of a record.
#[tactic(auto, using(crate::proofs::Laws::fitting, crate::proofs::Laws::format_said))]
fn format_from(words: &[u32]) -> Format
    requires { (906 ≤ length words.now) × (fields_fit words.now ≡ true) }
    ensures answer { result ≡ format_from words.now }
{
    Format {
        tag: words[0] as u16,
        channels: words[1] as u16,
        rate: words[2],
        bits: words[3] as u16,
        align: words[4] as u16,
        samples: words[5] as u16,
    }
}

// The 64 cues of a record. This and the two below stay three, as each begins with an empty table of its own type.
#[tactic(auto, using(crate::proofs::Laws::taking))]
fn cues_from(words: &[u32]) -> [Cue; 64]
    requires { 906 ≤ length words.now }
    ensures answer { result ≡ cues_from words.now 64 }
{
    let mut list = tables::no_cues().list;
    take_list(words, 9, &mut list);
    list
}

// The 64 playlist entries of a record.
#[tactic(auto, using(crate::proofs::Laws::taking))]
fn plays_from(words: &[u32]) -> [Play; 64]
    requires { 906 ≤ length words.now }
    ensures answer { result ≡ entries_from words.now 64 }
{
    let mut list = tables::no_plays().list;
    take_list(words, 201, &mut list);
    list
}

// The 128 titles of a record.
#[tactic(auto, using(crate::proofs::Laws::taking))]
fn titles_from(words: &[u32]) -> [Title; 128]
    requires { 906 ≤ length words.now }
    ensures answer { result ≡ titles_from words.now 128 }
{
    let mut list = titles::no_titles().list;
    take_list(words, 394, &mut list);
    list
}

// The record that words say.
#[tactic(auto, using(crate::proofs::Laws::record_said))]
pub fn record_from(words: &[u32]) -> Record
    requires { (906 ≤ length words.now) × (fields_fit words.now ≡ true) }
    ensures answer { result ≡ record_from words.now }
{
    let cues = Cues {
        count: words[7],
        list: cues_from(words),
    };
    let playlist = Playlist {
        count: words[8],
        list: plays_from(words),
    };
    let titles = Titles {
        count: words[393],
        list: titles_from(words),
    };
    Record {
        format: format_from(words),
        frames: Frames(words[6]),
        cues,
        playlist,
        titles,
    }
}
