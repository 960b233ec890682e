// Decoding: the sound of a whole file in any of the three formats, or of one ADPCM block of it.
//
// All checks come before the first store, so that a refusal leaves the lent buffer as it was.
#![tactic(auto)]

ghost use Rattle.std.specs.Prelude.{◌≡◌, true, ◌<◌, length};
ghost use Rattle.little.specs.Writing.{holding};
ghost use Rattle.formats.specs.Format.{format_rule};
ghost use Rattle.formats.specs.Frames.{Sounding};
ghost use Rattle.sound_data.specs.Sound.{has_block, block_sound, whole_sound};
ghost use Rattle.decode.specs.Decoding.{whole_verdict, block_verdict, decoded_by, decoded_verdict, decoding, block_decoding, file_sound, file_block};

use formats::Format;
use units::{Frames, Refusal};

// Decodes the sound data of a file that reading has taken.
#[tactic(auto, using(crate::proofs::Checks::whole))]
fn decode_data(
    format: Format,
    frames: Frames,
    bytes: &[u8],
    out: &mut [i16],
) -> Result<Frames, Refusal>
    requires { Sounding format frames bytes.now }
    ensures answer { result ≡ decoded_by (whole_verdict format frames.0 bytes.now (length out.old)) frames.0 }
    ensures buffer { out.new
        ≡ holding (decoded_verdict result) (whole_sound format frames.0 bytes.now) out.old }
{
    if out.len() < frames.0 as usize * format.channels as usize {
        return Err(Refusal::OutputTooSmall);
    }
    if !sound_data::data_valid(format, bytes) {
        return Err(Refusal::BlockHeaderWrong);
    }
    sound_data::put_sound(format, frames, bytes, out);
    Ok(frames)
}

// Whether the data have a block of this number that can be decoded alone.
#[tactic(auto, using(crate::proofs::Checks::counted))]
fn has_block(format: Format, bytes: &[u8], block: usize) -> bool
    requires { format_rule format ≡ true }
    ensures answer { result ≡ has_block format bytes.now block }
{
    formats::needs_fact(format) && block < sound_data::block_count(format, bytes)
}

// Decodes a block of the sound data of a file that reading has taken.
#[tactic(auto, using(crate::proofs::Checks::parts))]
fn decode_part(
    format: Format,
    bytes: &[u8],
    block: usize,
    out: &mut [i16],
) -> Result<Frames, Refusal>
    requires { format_rule format ≡ true }
    ensures answer { result ≡ decoded_by (block_verdict format bytes.now block (length out.old)) format.samples }
    ensures buffer { out.new
        ≡ holding (decoded_verdict result) (block_sound format bytes.now block) out.old }
{
    if !has_block(format, bytes, block) {
        return Err(Refusal::NoSuchBlock);
    }
    if out.len() < format.samples as usize * format.channels as usize {
        return Err(Refusal::OutputTooSmall);
    }
    let part = sound_data::block_at(format, bytes, block);
    if !sound_data::block_valid(format, part) {
        return Err(Refusal::BlockHeaderWrong);
    }
    sound_data::put_one_block(format, part, out);
    Ok(Frames(format.samples as u32))
}

// Decodes a whole file into a lent buffer.
pub fn decode(file: &[u8], out: &mut [i16]) -> Result<Frames, Refusal>
    ensures answer { result ≡ decoding file.now (length out.old) }
    ensures buffer { out.new ≡ holding (decoded_verdict result) (file_sound file.now) out.old }
{
    let opened = reader::open(file)?;
    let bytes = riff::part(file, opened.sound, b"");
    decode_data(opened.made.format, opened.made.frames, bytes, out)
}

// Decodes a block of an ADPCM file, counted from 0, into a lent buffer: all its frames, so with its fill.
pub fn decode_block(file: &[u8], block: u32, out: &mut [i16]) -> Result<Frames, Refusal>
    ensures answer { result ≡ block_decoding file.now block (length out.old) }
    ensures buffer { out.new ≡ holding (decoded_verdict result) (file_block file.now block) out.old }
{
    let opened = reader::open(file)?;
    let bytes = riff::part(file, opened.sound, b"");
    decode_part(opened.made.format, bytes, block as usize, out)
}
