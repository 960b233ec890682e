// Tronalhet, the library on one page: all that a user of it sees.
//
// Every operation takes every input and ends. Where it refuses, every lent buffer holds what it held
// before. What each one promises stands in docs/PROMISES.md, with the definitions that say it.
#![tactic(auto)]

// ---- units: frames, bytes of a file, bytes of texts and donation numbers are never taken for one another

// A number of frames: one sample of each channel is a frame.
pub use units::Frames;
// A place in a file or a buffer, or a length of one, in bytes.
pub use units::BytePlace;
// A place among the texts of titles, or a length of one, in bytes.
pub use units::TextPlace;
// The number under which a song was donated.
pub use units::Donation;

// ---- refusals

// Why an input is refused: a name for each row of document 01's table.
pub use units::Refusal;
// The number of a refusal.
pub use units::number;

// ---- the record of a file, by value

// Tag, channels, rate, bits, align and samples per block.
pub use formats::Format;
// A cue: its name, its position and its place.
pub use tables::Cue;
// At most 64 cues.
pub use tables::Cues;
// A playlist entry: the name of its cue, its length, and how often it is played.
pub use tables::Play;
// At most 64 entries.
pub use tables::Playlist;
// A title: its kind, the name of its cue, and where its text stands in a buffer of texts.
pub use titles::Title;
// At most 128 titles.
pub use titles::Titles;
// The two kinds of a title.
pub use titles::{LABEL, NOTE};
// Room for the texts of every file.
pub use titles::MOST_TITLE_BYTES;
// Format, frames, cues, playlist and titles.
pub use rules::Record;

// ---- reading

// The record of a file, or why it has none; the texts of its titles go into a lent buffer: refusals 1 to 13, 21, 14.
pub use reader::read;
// The sound data of a file, that very part of it; of a refused file, an empty part.
pub use reader::sound_of;

// ---- writing

// Writes a record, the texts of its titles and its sound as a file, and tells how many bytes it has, or why there is none:
// 9 to 13, 21, 1, 14.
pub use writer::write;

// ---- decoding to 16-bit samples, the channels in turn

// Decodes a whole file, and tells how many frames were put out, or why there are none: the reader's refusals, 14, 15.
pub use decode::decode;
// Decodes one ADPCM block of a file, with its fill: the reader's refusals, 20, 14, 15.
pub use decode::decode_block;

// ---- encoding to IMA blocks, and the approval copy

// How many bytes the blocks have, and the chased samples of each channel.
pub use encode::Coded;
// Encodes a sound, and tells of its blocks, or why there are none: 1, 9, 10, 14.
pub use encode::encode;
// The record of an approval copy, a file of such blocks.
pub use approval::record_of;

// ---- sides

// Adds a song to a side, and tells how many bytes the new side has, or why there is none: the song file's refusals, 19, 9,
// 16, 18, 17, 1, 14.
pub use side::add;
// Writes an empty side: 9, 14.
pub use side::empty;
