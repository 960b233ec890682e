// What the two codecs of blocks have in common: the trait of a codec, whose meaning is a `Codec` of
// specs/Codec.antt, and what is written once for both.
#![tactic(auto)]

ghost use Rattle.std.specs.Prelude.{◌≡◌, ◌+◌, ◌*◌, ◌≤◌, ◌<◌, length};
ghost use Rattle.little.specs.Writing.{Put};
ghost use Rattle.codec.specs.Codec.{Codec, Decodable, frames_heard, headers_valid};

// A codec of blocks of one or two channels.
pub trait BlockCodec {
    type State;

    ghost meaning: { Codec Self.State };

    // Whether the header of a channel is in range.
    fn header_valid(block: &[u8], channels: usize, channel: usize) -> bool
        requires { (channel < channels) × (channels ≤ 2) × (meaning.header * channels ≤ length block.now) }
        ensures { result ≡ meaning.valid channels block.now channel };

    // Puts the first frames of a mono block at a place.
    fn put_mono(block: &[u8], frames: usize, out: &mut [i16], at: usize)
        requires { Decodable meaning 1 frames block.now × (1 ≤ frames) × (at + frames ≤ length out.old) }
        ensures { Put out.old at (frames_heard meaning 1 frames block.now) out.new };

    // Puts the first frames of a stereo block at a place.
    fn put_stereo(block: &[u8], frames: usize, out: &mut [i16], at: usize)
        requires { Decodable meaning 2 frames block.now × (1 ≤ frames) × (at + 2 * frames ≤ length out.old) }
        ensures { Put out.old at (frames_heard meaning 2 frames block.now) out.new };
}

// Whether the header of every channel is in range. The two are tested straight on: a loop over the channels takes twice
// as long on a file of small blocks.
#[tactic(auto, using(crate::proofs::Channels::checking))]
pub fn headers_valid<C: BlockCodec>(block: &[u8], channels: usize) -> bool
    requires { (1 ≤ channels) × (channels ≤ 2) × (C.meaning.header * channels ≤ length block.now) }
    ensures answer { result ≡ headers_valid C.meaning channels block.now }
{
    if !C::header_valid(block, channels, 0) {
        return false;
    }
    if channels < 2 {
        return true;
    }
    C::header_valid(block, channels, 1)
}

// Puts the first frames of a block at a place.
pub fn decode<C: BlockCodec>(
    block: &[u8],
    channels: usize,
    frames: usize,
    out: &mut [i16],
    at: usize,
)
    requires { Decodable C.meaning channels frames block.now × (1 ≤ frames) × (at + channels * frames ≤ length out.old) }
    ensures buffer { Put out.old at (frames_heard C.meaning channels frames block.now) out.new }
{
    if channels == 1 {
        C::put_mono(block, frames, out, at);
    } else {
        C::put_stereo(block, frames, out, at);
    }
}
