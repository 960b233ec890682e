// The list `adtl` of a file: labels and notes, each of a cue. What it says, its form and its rule; its
// texts, one after the other; and the list as it is written.
//
// The text of a title stands in some bytes: in the list itself, or in a lent buffer of texts.
#![tactic(auto)]

ghost use Rattle.std.specs.Prelude.{◌≡◌, true, [], ◌++◌, ◌&&◌, ℕ, ◌+◌, ◌-◌, ◌%◌, ◌≤◌, ◌<◌, cond, leb, is_some, length, map, take, drop, get_or, replicate};
ghost use Rattle.units.specs.Refusals.{file_limit};
ghost use Rattle.little.specs.Numbers.{bytes_of};
ghost use Rattle.little.specs.Writing.{Put, front};
ghost use Rattle.lists.specs.Among.{distinct};
ghost use Rattle.riff.specs.Chunks.{size_at};
ghost use Rattle.tables.specs.Bytes.{entry_bytes};
ghost use Rattle.tables.specs.Cues.{names_in};
ghost use Rattle.titles.specs.Titles.{entry_in, entries_of, closed, entry_rule, each_rule, names_by, entries_rule};
ghost use Rattle.titles.specs.Titles.{texts_of, texts_end, moved_to, moved_in_turn, no_title, no_titles};
ghost use Rattle.titles.specs.Lists.{front_kind, title_kind, pad_fits, front_of, entries_in, list_form, list_read, SaysAt, Formed, FoundIn};
ghost use Rattle.titles.specs.Writing.{title_code, chunk_of, list_bytes, texts_in_row, titles_right, Short};

use codes::Code;
use riff::Pad;
use tables::Cues;
use units::{BytePlace, Donation, TextPlace};

// The most titles: a label and a note for each of 64 cues.
pub const MOST: u32 = 128;

// The most bytes of their texts: room for those of every file. Each has 256 at most, its zero among them.
pub const MOST_TITLE_BYTES: usize = 32768;

// The kinds of a title. They are numbers, as a record that is lent for writing may hold any, and is then refused.
pub const LABEL: u32 = 0;

pub const NOTE: u32 = 1;

// A title: its kind, the name of its cue, where its text starts, and how many bytes come before its zero.
#[derive(Clone, Copy)]
pub struct Title {
    pub kind: u32,
    pub name: Donation,
    pub start: TextPlace,
    pub length: TextPlace,
}

// A table of titles; past the count it is zero. The whole array is there beside its count, as in a table of cues.
#[derive(Clone, Copy)]
pub struct Titles {
    pub count: u32,
    pub list: [Title; 128],
}

// The chunk at the front of what is left of a list: the kind of a title, or none where it is no title, how
// many bytes its data are, and where the rest starts.
#[derive(Clone, Copy)]
struct Front {
    kind: Option<u32>,
    size: usize,
    next: usize,
}

// ---- the chunks of a list

// The kind of the title at the front, and none where the chunk there is no title.
#[tactic(auto, using(std::proofs::lemmas::Bool::Decides::nat_tests), unfolding(crate::specs::Lists::front_kind))]
fn title_kind(rest: &[u8]) -> Option<u32>
    ensures answer { result ≡ title_kind rest.now }
{
    if codes::is_at(rest, 0, Code::Label) {
        return Some(LABEL);
    }
    if codes::is_at(rest, 0, Code::Note) {
        return Some(NOTE);
    }
    None
}

// Whether a pad is as it may be in a list, whose own pad is lost or not.
fn pad_fits(lost: bool, pad: Pad) -> bool
    ensures answer { result ≡ pad_fits lost pad }
{
    match pad {
        Pad::NotNeeded | Pad::There => true,
        Pad::Absent => lost,
    }
}

// Whether a title has the size that one can have; any other chunk may have any.
#[tactic(auto, using(std::proofs::lemmas::Bool::Decides::nat_tests))]
fn size_fits(kind: Option<u32>, size: usize) -> bool
    ensures answer { result ≡ cond (is_some kind) (leb 5 size && leb size 260) true }
{
    match kind {
        Some(_) => 5 <= size && size <= 260,
        None => true,
    }
}

// The chunk at the front of what is left of a list, whose own pad is lost or not; none where it is not as it
// may be.
#[tactic(auto, using(crate::proofs::Walking::fronting))]
fn front_of(rest: &[u8], lost: bool) -> Option<Front>
    ensures answer { result ≡ front_of lost rest.now }
{
    if rest.len() < 8 {
        return None;
    }
    let size = little::u32_at(rest, 4) as usize;
    let end = 8 + size;
    if rest.len() < end {
        return None;
    }
    let pad = riff::pad_after(size, end, rest.len());
    if !pad_fits(lost, pad) {
        return None;
    }
    let kind = title_kind(rest);
    if !size_fits(kind, size) {
        return None;
    }
    let next = end + riff::pad_size(pad);
    Some(Front { kind, size, next })
}

// Room for titles, all zero.
fn title_room() -> [Title; 128]
    ensures answer { result ≡ replicate 128 no_title }
{
    let none = Title {
        kind: 0,
        name: Donation(0),
        start: TextPlace(0),
        length: TextPlace(0),
    };
    [none; 128]
}

// No titles.
#[tactic(auto, using(crate::proofs::Rules::none_made))]
pub fn no_titles() -> Titles
    ensures answer { result ≡ no_titles }
{
    Titles {
        count: 0,
        list: title_room(),
    }
}

// The titles that a table counts.
fn counted(titles: &Titles) -> &[Title]
    requires { titles.now.count ≤ 128 }
    ensures part { result.now ≡ take titles.now.count titles.now.list }
{
    &titles.list[..titles.count as usize]
}

// The title that the chunk at a place of a list says, which is one of so many bytes.
#[tactic(auto, using(crate::proofs::Walking::title_ones))]
fn title_at(list: &[u8], at: usize, kind: u32, size: usize) -> Title
    requires kind_value { (kind ≡ front_kind (drop at list.now)) × (size ≡ size_at (drop at list.now) 0) }
    requires size_in_bounds { (at + 8 + size ≤ length list.now) × (length list.now ≤ file_limit) × (5 ≤ size) }
    ensures says { SaysAt list.now at result }
{
    let name = little::u32_or_zero(list, at + 8);
    Title {
        kind,
        name: Donation(name),
        start: TextPlace((at + 12) as u32),
        length: TextPlace((size - 5) as u32),
    }
}

// The titles of a list, where they stand in it, and none where it has not its form: one walk over its chunks.
// Whether its own pad is lost says whether that of its last chunk may be. A turn is as long as its chunk says, so
// this is no `for`.
pub fn find_titles(list: &[u8], lost: bool) -> Option<Titles>
    requires { length list.now ≤ file_limit }
    ensures found { FoundIn lost list.now result }
{
    let mut titles = title_room();
    let most = MOST as usize;
    let mut n: usize = 0;
    let mut at: usize = 4;
    while at < list.len() {
        let here = at;
        let front = front_of(&list[here..], lost)?;
        at += front.next;
        if let Some(kind) = front.kind {
            if most <= n {
                return None;
            }
            titles[n] = title_at(list, here, kind, front.size);
            n += 1;
        }
    }
    Some(Titles {
        count: n as u32,
        list: titles,
    })
}

// The titles of a list that has its form, where they stand in it.
pub fn titles_in(list: &[u8], lost: bool) -> Titles
    requires { (length list.now ≤ file_limit) × (list_form lost list.now ≡ true) }
    ensures stands { Formed lost list.now result }
{
    find_titles(list, lost).unwrap()
}

// ---- the rule on titles

// The text of a title with its zero, that very part of the bytes that it stands in.
fn text_of(source: &[u8], title: Title) -> &[u8]
    ensures part { result.now ≡ (entry_in source.now title).text }
{
    let from = title.start.0 as usize;
    let n = title.length.0 as usize + 1;
    little::bytes_from(source, BytePlace(from), BytePlace(n))
}

// Whether a text is closed by a zero, the only one.
fn is_closed(text: &[u8]) -> bool
    ensures answer { result ≡ closed text.now }
{
    match text.iter().position(|byte| *byte == 0) {
        Some(zero) => zero + 1 == text.len(),
        None => false,
    }
}

// Whether a title is a label or a note, has a text as it must be, and names a cue.
#[tactic(auto, using(std::proofs::lemmas::Bool::Decides::nat_tests, crate::proofs::Rules::named), unfolding(crate::specs::Titles::entry_rule))]
fn title_rule(source: &[u8], title: Title, names: &[u32]) -> bool
    ensures answer { result ≡ entry_rule names.now (entry_in source.now title) }
{
    let text = text_of(source, title);
    title.kind <= NOTE
        && text.len() <= 256
        && is_closed(text)
        && lists::find(names, title.name.0).is_some()
}

// Whether each title keeps its rule.
fn each_rule(source: &[u8], list: &[Title], names: &[u32]) -> bool
    ensures answer { result ≡ each_rule names.now (map (entry_in source.now) list.now) }
{
    list.iter().all(|title| title_rule(source, *title, names))
}

// Whether no two titles of a kind name the same cue, whatever their texts. Their names go into an array, as the
// library has no heap to collect them in.
#[tactic(auto, using(crate::proofs::Rules::naming))]
fn differ(list: &[Title], kind: u32) -> bool
    requires { length list.now ≤ 128 }
    ensures answer { result ≡ distinct (names_by kind (map (entry_in []) list.now)) }
{
    let mut names = [0u32; 128];
    let mut count = 0;
    for title in list {
        if title.kind == kind {
            names[count] = title.name.0;
            count += 1;
        }
    }
    lists::all_differ(&names[..count])
}

// Whether titles, whose texts stand in some bytes, keep the rule.
#[tactic(auto, using(std::proofs::lemmas::Bool::Decides::nat_tests, crate::proofs::Rules::rule_three))]
fn titles_rule(source: &[u8], list: &[Title], names: &[u32]) -> bool
    requires { length list.now ≤ 128 }
    ensures answer { result ≡ entries_rule names.now (map (entry_in source.now) list.now) }
{
    each_rule(source, list, names) && differ(list, LABEL) && differ(list, NOTE)
}

// The same, where names are those of cues.
#[tactic(auto, using(crate::proofs::Rules::rule_for_cues))]
fn rule_for(source: &[u8], list: &[Title], cues: Cues) -> bool
    requires { length list.now ≤ 128 }
    ensures answer { result ≡ entries_rule (names_in cues) (map (entry_in source.now) list.now) }
{
    let names = tables::names_of(cues.list);
    titles_rule(source, list, &names[..tables::held_of(cues.count)])
}

// ---- what is read of a list

// A title whose text starts elsewhere.
fn moved_to(title: Title, at: u32) -> Title
    ensures answer { result ≡ moved_to at title }
{
    Title {
        start: TextPlace(at),
        ..title
    }
}

// Titles with their texts one after the other from the start of a buffer, and room for others past them.
#[tactic(auto, using(crate::proofs::Texts::turning))]
fn in_turn(list: &[Title]) -> [Title; 128]
    requires { (length list.now ≤ 128) × ((i : ℕ) → i < length list.now → (get_or list.now i no_title).length.0 ≤ 255) }
    ensures answer { result ≡ moved_in_turn 0 list.now ++ replicate (128 - length list.now) no_title }
{
    let mut placed = title_room();
    let mut at: u32 = 0;
    for (i, title) in list.iter().enumerate() {
        placed[i] = moved_to(*title, at);
        at += title.length.0 + 1;
    }
    placed
}

// What is read of a list, with the cues of its file, and none where it is not valid. Whether its own pad is
// lost says whether that of its last chunk may be.
pub fn read_list(list: &[u8], lost: bool, cues: Cues) -> Option<Titles>
    requires { length list.now ≤ file_limit }
    ensures answer { result ≡ list_read lost list.now (names_in cues) }
{
    let titles = find_titles(list, lost)?;
    let there = counted(&titles);
    if !rule_for(list, there, cues) {
        return None;
    }
    Some(Titles {
        count: titles.count,
        list: in_turn(there),
    })
}

// How many bytes the texts of a table have, which stand one after the other from the start of a buffer.
pub fn texts_end(titles: Titles) -> usize
    requires { titles.count ≤ 128 }
    ensures answer { result ≡ texts_end titles }
{
    match counted(&titles).last() {
        Some(last) => last.start.0 as usize + last.length.0 as usize + 1,
        None => 0,
    }
}

// Puts the texts of titles from the start of a lent buffer.
#[tactic(auto, using(crate::proofs::Pouring::pouring, crate::proofs::Texts::texting))]
fn put_each(source: &[u8], list: &[Title], out: &mut [u8])
    requires few { length list.now ≤ 128 }
    requires in_bounds { length (texts_of (map (entry_in source.now) list.now)) ≤ length out.old }
    ensures buffer { out.new ≡ front (texts_of (map (entry_in source.now) list.now)) out.old }
{
    let mut at: usize = 0;
    for title in list {
        let text = text_of(source, *title);
        little::put_bytes(out, at, text);
        at += text.len();
    }
}

// Puts the texts of a list that has its form from the start of a lent buffer.
pub fn put_texts(list: &[u8], lost: bool, out: &mut [u8])
    requires list_len_bound { (length list.now ≤ file_limit) × (list_form lost list.now ≡ true) }
    requires list_in_bounds { length (texts_of (entries_in list.now)) ≤ length out.old }
    ensures buffer { out.new ≡ front (texts_of (entries_in list.now)) out.old }
{
    let titles = titles_in(list, lost);
    put_each(list, counted(&titles), out);
}

// ---- titles that may be written

// Whether the texts of titles stand in a row, from the start of a buffer with so much room.
#[tactic(auto, using(crate::proofs::Texts::rowing))]
fn in_row(list: &[Title], room: usize) -> bool
    requires { length list.now ≤ 128 }
    ensures answer { result ≡ texts_in_row room 0 list.now }
{
    let mut at: usize = 0;
    for title in list {
        if title.start.0 as usize != at {
            return false;
        }
        at += title.length.0 as usize + 1;
        if room < at {
            return false;
        }
    }
    true
}

// Whether titles, whose texts stand in a buffer, are as reading gives them.
#[tactic(auto, using(crate::proofs::Lists::right))]
pub fn titles_right(source: &[u8], titles: Titles, cues: Cues) -> bool
    ensures answer { result ≡ titles_right (names_in cues) source.now titles }
{
    if MOST < titles.count {
        return false;
    }
    let list = counted(&titles);
    in_row(list, source.len()) && rule_for(source, list, cues)
}

// ---- the list as it is written

// The code of a kind.
#[tactic(auto, using(crate::proofs::Putting::coding))]
fn code_of(kind: u32) -> Code
    ensures answer { result ≡ title_code kind }
{
    if kind == LABEL {
        Code::Label
    } else {
        Code::Note
    }
}

// Puts a name and a text behind it.
fn put_named(out: &mut [u8], at: usize, name: Donation, text: &[u8])
    requires { at + (4 + length text.now) ≤ length out.old }
    ensures buffer { Put out.old at (bytes_of 4 name.0 ++ text.now) out.new }
{
    little::put_u32(out, at, name.0);
    little::put_bytes(out, at + 4, text);
}

// Puts a title as a chunk, and gives the place behind it.
#[tactic(auto, using(crate::proofs::Putting::titling))]
fn put_title(source: &[u8], title: Title, out: &mut [u8], at: usize) -> usize
    requires title_len_bound { length (entry_in source.now title).text ≤ 256 }
    requires title_in_bounds { at + length (chunk_of (entry_in source.now title)) ≤ length out.old }
    ensures answer { result ≡ at + length (chunk_of (entry_in source.now title)) }
    ensures buffer { Put out.old at (chunk_of (entry_in source.now title)) out.new }
{
    let text = text_of(source, title);
    let size = 4 + text.len();
    let code = code_of(title.kind);
    riff::put_head(out, at, code, size as u32);
    put_named(out, at + 8, title.name, text);
    riff::put_pad(out, at + 8 + size, size);
    at + 8 + size + size % 2
}

// Puts titles as chunks, one behind the other.
#[tactic(auto, using(crate::proofs::Pouring::pouring, crate::proofs::Putting::adding))]
fn put_chunks(source: &[u8], list: &[Title], out: &mut [u8], at: usize)
    requires short { Short source.now list.now (length list.now) }
    requires in_bounds { at + length (entry_bytes chunk_of (map (entry_in source.now) list.now)) ≤ length out.old }
    ensures buffer { Put out.old at (entry_bytes chunk_of (map (entry_in source.now) list.now)) out.new }
{
    let mut next = at;
    for title in list {
        next = put_title(source, *title, out, next);
    }
}

// Puts the list of titles, whose texts stand in some bytes, at a place.
#[tactic(auto, using(crate::proofs::Putting::listing))]
pub fn put_list(out: &mut [u8], at: usize, source: &[u8], titles: Titles)
    requires short { Short source.now titles.list titles.count }
    requires titles_in_bounds { at + length (list_bytes (entries_of source.now titles)) ≤ length out.old }
    ensures buffer { Put out.old at (list_bytes (entries_of source.now titles)) out.new }
{
    let list = counted(&titles);
    codes::put(out, at, Code::Titles);
    put_chunks(source, list, out, at + 4);
}

// The bytes that a title takes as a chunk.
#[tactic(auto, using(crate::proofs::Putting::chunk_sizing))]
fn chunk_size(source: &[u8], title: Title) -> usize
    requires { length (entry_in source.now title).text ≤ 256 }
    ensures answer { result ≡ length (chunk_of (entry_in source.now title)) }
    ensures bound { result ≤ 268 }
    ensures even { result % 2 ≡ 0 }
{
    let text = text_of(source, title);
    let size = 4 + text.len();
    8 + size + size % 2
}

// The bytes that titles take as chunks.
#[tactic(auto, using(crate::proofs::Putting::adding))]
fn chunks_size(source: &[u8], list: &[Title]) -> usize
    requires { Short source.now list.now (length list.now) }
    ensures answer { result ≡ length (entry_bytes chunk_of (map (entry_in source.now) list.now)) }
    ensures bound { result ≤ 34304 }
    ensures even { result % 2 ≡ 0 }
{
    let mut size: usize = 0;
    for title in list {
        size += chunk_size(source, *title);
    }
    size
}

// The bytes that the list of titles takes.
#[tactic(auto, using(crate::proofs::Putting::listing))]
pub fn list_size(source: &[u8], titles: Titles) -> usize
    requires { Short source.now titles.list titles.count }
    ensures answer { result ≡ length (list_bytes (entries_of source.now titles)) }
    ensures bound { result ≤ 34308 }
    ensures even { result % 2 ≡ 0 }
{
    4 + chunks_size(source, counted(&titles))
}
