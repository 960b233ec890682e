// Encoding: a whole sound as IMA blocks, and how many samples of each channel are chased.
#![tactic(auto)]

ghost use Rattle.std.specs.Prelude.{◌≡◌, ◌*◌, ◌%◌, ◌≤◌, length, Ok};
ghost use Rattle.little.specs.Writing.{front, holding};
ghost use Rattle.encode.specs.Encoding.{blocks_for, encode_verdict, encoded_bytes, chased_count};
ghost use Rattle.encode.specs.Answer.{coded_of, encoding, encoded_verdict};

use ima_code::ImaState;
use ima_coder::{Channel, Channels, mono_block, stereo_block};
use units::{BytePlace, Frames, Refusal};

// What was written: how many bytes, and the chased samples of each channel.
#[derive(Clone, Copy)]
pub struct Coded {
    pub bytes: BytePlace,
    pub left: Frames,
    pub right: Frames,
}

// A channel before the first block.
const SILENT: Channel = Channel {
    state: ImaState { last: 0, index: 0 },
    chased: 0,
};

// Codes n blocks of a mono sound, from the start of a lent buffer.
fn mono_blocks(sound: &[i16], align: usize, n: usize, out: &mut [u8]) -> u32
    requires { (align % 4 ≡ 0) × (8 ≤ align) × (align ≤ 4096) × (length sound.now ≤ 536870912)
        × (n ≡ blocks_for 1 align (length sound.now)) × (n * align ≤ length out.old) }
    ensures answer { result ≡ chased_count 1 align sound.now 0 }
    ensures buffer { out.new ≡ front (encoded_bytes 1 align sound.now) out.old }
{
    let groups = align / 4 - 1;
    let mut channel = SILENT;
    let mut frame = 0;
    for i in 0..n {
        channel = mono_block(sound, frame, groups, channel, out, i * align);
        frame += 8 * groups + 1;
    }
    channel.chased
}

// Codes n blocks of a stereo sound, from the start of a lent buffer.
fn stereo_blocks(sound: &[i16], align: usize, n: usize, out: &mut [u8]) -> Channels
    requires { (align % 8 ≡ 0) × (16 ≤ align) × (align ≤ 4096) × (length sound.now ≤ 536870912) × (length sound.now % 2 ≡ 0)
        × (n ≡ blocks_for 2 align (length sound.now)) × (n * align ≤ length out.old) }
    ensures left_chased { result.left.chased ≡ chased_count 2 align sound.now 0 }
    ensures right_chased { result.right.chased ≡ chased_count 2 align sound.now 1 }
    ensures buffer { out.new ≡ front (encoded_bytes 2 align sound.now) out.old }
{
    let groups = align / 8 - 1;
    let mut channels = Channels {
        left: SILENT,
        right: SILENT,
    };
    let mut at = 0;
    for i in 0..n {
        channels = stereo_block(sound, at, groups, channels, out, i * align);
        at += 16 * groups + 2;
    }
    channels
}

// How many blocks so many samples fill or begin.
fn blocks_for(channels: usize, align: usize, samples: usize) -> usize
    requires { (1 ≤ channels) × (4 * channels ≤ align) × (align ≤ 4096) × (samples ≤ 536870912) }
    ensures answer { result ≡ blocks_for channels align samples }
    ensures bound { result ≤ 536870912 }
{
    let per = formats::ima_samples(channels, align);
    let frames = samples / channels;
    frames.div_ceil(per)
}

// The checks of encoding, before anything is written.
fn settled(samples: usize, channels: usize, align: usize, room: usize) -> Result<(), Refusal>
    ensures answer { result ≡ encode_verdict samples channels align room }
{
    if 536870912 < samples {
        return Err(Refusal::LengthOutOfRange);
    }
    if !formats::is_codable(channels, align) {
        return Err(Refusal::FormatWrong);
    }
    if samples % channels != 0 {
        return Err(Refusal::NotWholeFrames);
    }
    let n = blocks_for(channels, align, samples);
    if room < n * align {
        return Err(Refusal::OutputTooSmall);
    }
    Ok(())
}

// Writes the blocks of a sound that the checks have passed.
fn write_blocks(sound: &[i16], channels: usize, align: usize, out: &mut [u8]) -> Coded
    requires { encode_verdict (length sound.now) channels align (length out.old) ≡ Ok tt }
    ensures answer { result ≡ coded_of channels align sound.now }
    ensures buffer { out.new ≡ front (encoded_bytes channels align sound.now) out.old }
{
    let n = blocks_for(channels, align, sound.len());
    if channels == 1 {
        let chased = mono_blocks(sound, align, n, out);
        return Coded {
            bytes: BytePlace(n * align),
            left: Frames(chased),
            right: Frames(0),
        };
    }
    let both = stereo_blocks(sound, align, n, out);
    Coded {
        bytes: BytePlace(n * align),
        left: Frames(both.left.chased),
        right: Frames(both.right.chased),
    }
}

// Encodes a sound as IMA blocks, from the start of a lent buffer.
#[tactic(auto, using(crate::proofs::Answers::answering), unfolding(crate::specs::Answer::encoding))]
pub fn encode(sound: &[i16], channels: u16, align: u16, out: &mut [u8]) -> Result<Coded, Refusal>
    ensures answer { result ≡ encoding sound.now channels align (length out.old) }
    ensures buffer { out.new
        ≡ holding (encoded_verdict result) (encoded_bytes channels align sound.now) out.old }
{
    let channels = channels as usize;
    let align = align as usize;
    settled(sound.len(), channels, align, out.len())?;
    Ok(write_blocks(sound, channels, align, out))
}
