// A Microsoft block: the check of its predictors, and its sound put into a lent buffer in order of the
// output.
//
// A block is the headers of the channels and behind them the nibbles, of each channel in turn. In mono a
// byte has two frames, in stereo one.
#![tactic(auto)]

ghost use Rattle.std.specs.Prelude.{◌≡◌, [], ◌∷◌, ◌+◌, ◌*◌, ◌≤◌, ◌<◌, length, drop, get_or};
ghost use Rattle.little.specs.Writing.{Put};
ghost use Rattle.lists.specs.Turns.{in_turn};
ghost use Rattle.codec.specs.Codec.{Decodable, heard_from, frames_heard, headers_valid, low, high, nibbles};
ghost use Rattle.ms_code.specs.Nibble.{Tame};
ghost use Rattle.ms_block.specs.Block.{ms_opened, microsoft};

use codec::BlockCodec;
use formats::PAIRS;
use ms_code::{MsState, decode_nibble};

// A channel as its header says: the first one is channel 0.
fn opened_at(block: &[u8], channels: usize, channel: usize) -> MsState
    requires { (channels ≤ 2) × (channel < channels) × (7 * channels ≤ length block.now) × (get_or block.now channel 0 ≤ 6) }
    ensures answer { result ≡ ms_opened channels block.now channel }
    ensures tame { Tame result }
{
    let [first, second] = PAIRS[block[channel] as usize];
    MsState {
        first: first as i32,
        second: second as i32,
        delta: samples::sample_at(block, channels + 2 * channel) as i32,
        newer: samples::sample_at(block, 3 * channels + 2 * channel),
        older: samples::sample_at(block, 5 * channels + 2 * channel),
    }
}

// Puts frames of one channel at a place, from the nibbles behind its header.
fn mono_nibbles(block: &[u8], frames: usize, from: MsState, out: &mut [i16], at: usize)
    requires { (frames + 14 ≤ 2 * length block.now) × (at + frames ≤ length out.old) × Tame from }
    ensures buffer { Put out.old at
        (in_turn 1 frames (heard_from microsoft from (nibbles high low (drop 7 block.now)) ∷ [])) out.new }
{
    let mut state = from;
    for i in 0..frames / 2 {
        let byte = block[7 + i] as u32;
        let to = at + 2 * i;
        let high = decode_nibble(state, byte / 16);
        let low = decode_nibble(high, byte % 16);
        out[to] = high.newer;
        out[to + 1] = low.newer;
        state = low;
    }
    if frames % 2 == 1 {
        let byte = block[7 + frames / 2] as u32;
        let next = decode_nibble(state, byte / 16);
        out[at + frames - 1] = next.newer;
    }
}

// Puts frames of two channels at a place, from the nibbles behind their headers: the high one is left.
fn stereo_nibbles(
    block: &[u8],
    frames: usize,
    mut left: MsState,
    mut right: MsState,
    out: &mut [i16],
    at: usize,
)
    requires { (frames + 14 ≤ length block.now) × (at + 2 * frames ≤ length out.old) × Tame left × Tame right }
    ensures buffer { Put out.old at
        (in_turn 1 frames (heard_from microsoft left (microsoft.codes 2 block.now 0)
        ∷ heard_from microsoft right (microsoft.codes 2 block.now 1) ∷ []))
        out.new }
{
    for i in 0..frames {
        let byte = block[14 + i] as u32;
        let to = at + 2 * i;
        left = decode_nibble(left, byte / 16);
        right = decode_nibble(right, byte % 16);
        out[to] = left.newer;
        out[to + 1] = right.newer;
    }
}

// The codec of Microsoft blocks.
pub struct Microsoft;

impl BlockCodec for Microsoft {
    type State = MsState;

    ghost meaning = { microsoft };

    fn header_valid(block: &[u8], channels: usize, channel: usize) -> bool {
        block[channel] <= 6
    }

    fn put_mono(block: &[u8], frames: usize, out: &mut [i16], at: usize) {
        let state = opened_at(block, 1, 0);
        out[at] = state.older;
        if frames < 2 {
            return;
        }
        out[at + 1] = state.newer;
        mono_nibbles(block, frames - 2, state, out, at + 2);
    }

    fn put_stereo(block: &[u8], frames: usize, out: &mut [i16], at: usize) {
        let left = opened_at(block, 2, 0);
        let right = opened_at(block, 2, 1);
        out[at] = left.older;
        out[at + 1] = right.older;
        if frames < 2 {
            return;
        }
        out[at + 2] = left.newer;
        out[at + 3] = right.newer;
        stereo_nibbles(block, frames - 2, left, right, out, at + 4);
    }
}
