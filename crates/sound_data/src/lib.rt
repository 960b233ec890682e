// The sound of data in any of the three formats: the check of all block headers, and the samples put into
// a lent buffer.
//
// ADPCM data are decoded block after block. PCM data have no blocks to speak of: a block is one frame, and
// the samples are turned all in one go.
#![tactic(auto)]

ghost use Rattle.std.specs.Prelude.{◌≡◌, true, false, ◌+◌, ◌*◌, ◌≤◌, ◌<◌, length};
ghost use Rattle.little.specs.Writing.{Put, front};
ghost use Rattle.formats.specs.Format.{format_rule};
ghost use Rattle.formats.specs.Frames.{needs_fact, Sounding};
ghost use Rattle.sound_data.specs.Sound.{block_frames, block_valid, block_count, block_at, whole_sound, data_valid};

use formats::{Format, IMA, PCM};
use ima_block::Ima;
use ms_block::Microsoft;
use units::Frames;

// How many blocks the data are.
pub fn block_count(format: Format, bytes: &[u8]) -> usize
    requires { format_rule format ≡ true }
    ensures answer { result ≡ block_count format bytes.now }
{
    bytes.len() / format.align as usize
}

// A block of the data, counted from 0: that very part of them.
pub fn block_at(format: Format, bytes: &[u8], k: usize) -> &[u8]
    requires { (format_rule format ≡ true) × (k < block_count format bytes.now) }
    ensures part { result.now ≡ block_at format bytes.now k }
    ensures lent { result.ref_ptr.0 ≡ bytes.entry.ref_ptr.0 }
    ensures place { result.ref_ptr.1 ≡ bytes.entry.ref_ptr.1 + k * format.align }
    ensures long { length result.now ≡ format.align }
{
    let align = format.align as usize;
    let from = k * align;
    &bytes[from..from + align]
}

// Whether every header of a block has an index in range.
pub fn block_valid(format: Format, block: &[u8]) -> bool
    requires { (format_rule format ≡ true) × (length block.now ≡ format.align) }
    ensures answer { result ≡ block_valid format block.now }
{
    if format.tag == PCM {
        return true;
    }
    let channels = format.channels as usize;
    if format.tag == IMA {
        return codec::headers_valid::<Ima>(block, channels);
    }
    codec::headers_valid::<Microsoft>(block, channels)
}

// Whether the headers of all blocks are valid: a pass over the headers alone.
fn headers_valid(format: Format, bytes: &[u8]) -> bool
    requires { format_rule format ≡ true }
    ensures answer { result ≡ data_valid format bytes.now }
{
    let n = block_count(format, bytes);
    for k in 0..n {
        if !block_valid(format, block_at(format, bytes, k)) {
            return false;
        }
    }
    true
}

// Whether the data can be decoded; PCM always can.
pub fn data_valid(format: Format, bytes: &[u8]) -> bool
    requires { format_rule format ≡ true }
    ensures answer { result ≡ data_valid format bytes.now }
{
    if format.tag == PCM {
        return true;
    }
    headers_valid(format, bytes)
}

// Puts the first frames of an ADPCM block at a place.
fn put_block(format: Format, frames: usize, block: &[u8], out: &mut [i16], at: usize)
    requires { (format_rule format ≡ true) × (needs_fact format ≡ true) × (length block.now ≡ format.align)
        × (block_valid format block.now ≡ true) × (1 ≤ frames) × (frames ≤ format.samples)
        × (at + format.channels * frames ≤ length out.old) }
    ensures buffer { Put out.old at (block_frames format frames block.now) out.new }
{
    let channels = format.channels as usize;
    if format.tag == IMA {
        codec::decode::<Ima>(block, channels, frames, out, at);
    } else {
        codec::decode::<Microsoft>(block, channels, frames, out, at);
    }
}

// Puts the frames of ADPCM data into a lent buffer, block after block; the last block may have fill, which
// is left out.
fn put_blocks(format: Format, frames: Frames, bytes: &[u8], out: &mut [i16])
    requires { Sounding format frames bytes.now × (needs_fact format ≡ true) × (data_valid format bytes.now ≡ true)
        × (frames.0 * format.channels ≤ length out.old) }
    ensures buffer { out.new ≡ front (whole_sound format frames.0 bytes.now) out.old }
{
    let channels = format.channels as usize;
    let samples = format.samples as usize;
    let blocks = block_count(format, bytes);
    let mut left = frames.0 as usize;
    let mut to = 0;
    for i in 0..blocks {
        let n = left.min(samples);
        let block = block_at(format, bytes, i);
        put_block(format, n, block, out, to);
        left -= n;
        to += channels * n;
    }
}

// Puts the samples of PCM data into a lent buffer.
fn put_pcm(format: Format, frames: Frames, bytes: &[u8], out: &mut [i16])
    requires { Sounding format frames bytes.now × (needs_fact format ≡ false)
        × (frames.0 * format.channels ≤ length out.old) }
    ensures buffer { out.new ≡ front (whole_sound format frames.0 bytes.now) out.old }
{
    let eight = format.bits == 8;
    if eight {
        samples::from_pcm8(bytes, out);
    } else {
        samples::from_pcm16(bytes, out);
    }
}

// Puts the frames of data into a lent buffer, from its start.
pub fn put_sound(format: Format, frames: Frames, bytes: &[u8], out: &mut [i16])
    requires { Sounding format frames bytes.now × (data_valid format bytes.now ≡ true)
        × (frames.0 * format.channels ≤ length out.old) }
    ensures buffer { out.new ≡ front (whole_sound format frames.0 bytes.now) out.old }
{
    if format.tag == PCM {
        put_pcm(format, frames, bytes, out);
    } else {
        put_blocks(format, frames, bytes, out);
    }
}

// Puts a whole ADPCM block into a lent buffer, from its start and with its fill.
pub fn put_one_block(format: Format, block: &[u8], out: &mut [i16])
    requires { (format_rule format ≡ true) × (needs_fact format ≡ true) × (length block.now ≡ format.align)
        × (block_valid format block.now ≡ true) × (format.samples * format.channels ≤ length out.old) }
    ensures buffer { out.new ≡ front (block_frames format format.samples block.now) out.old }
{
    put_block(format, format.samples as usize, block, out, 0);
}
