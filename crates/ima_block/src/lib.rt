// An IMA block: the check of its headers, and its sound put into a lent buffer in order of the output.
//
// A block is four bytes of each channel in turn, first each channel's header and then its codes. A
// byte has two codes, and so two frames of its channel; in stereo a byte of each channel has four
// samples that follow each other in the output.
#![tactic(auto)]

ghost use Rattle.std.specs.Prelude.{◌≡◌, [], ◌∷◌, ◌+◌, ◌*◌, ◌%◌, ◌≤◌, ◌<◌, length, drop, get_or};
ghost use Rattle.little.specs.Writing.{Put};
ghost use Rattle.lists.specs.Turns.{in_turn};
ghost use Rattle.samples.specs.Sound.{sample_at};
ghost use Rattle.codec.specs.Codec.{Decodable, heard_from, frames_heard, headers_valid, low, high, nibbles};
ghost use Rattle.ima_block.specs.Block.{ima};

use codec::BlockCodec;
use ima_code::{ImaState, decode_code};

// Both channels between two codes.
#[derive(Clone, Copy)]
pub struct ImaStates {
    pub left: ImaState,
    pub right: ImaState,
}

// A channel as the header at a place says.
fn opened_at(block: &[u8], at: usize) -> ImaState
    requires { at + 4 ≤ length block.now }
    ensures last { result.last ≡ sample_at block.now at }
    ensures index { result.index ≡ get_or block.now (at + 2) 0 }
{
    ImaState {
        last: samples::sample_at(block, at),
        index: block[at + 2] as usize,
    }
}

// Puts frames of one channel at a place, from the codes behind its header.
fn mono_codes(block: &[u8], frames: usize, from: ImaState, out: &mut [i16], at: usize)
    requires { (frames + 8 ≤ 2 * length block.now) × (at + frames ≤ length out.old) × (from.index < 89) }
    ensures buffer { Put out.old at
        (in_turn 1 frames (heard_from ima from (nibbles low high (drop 4 block.now)) ∷ [])) out.new }
{
    let mut state = from;
    for i in 0..frames / 2 {
        let byte = block[4 + i] as u32;
        let to = at + 2 * i;
        let low = decode_code(state, byte % 16);
        let high = decode_code(low, byte / 16);
        out[to] = low.last;
        out[to + 1] = high.last;
        state = high;
    }
    if frames % 2 == 1 {
        let byte = block[4 + frames / 2] as u32;
        let next = decode_code(state, byte % 16);
        out[at + frames - 1] = next.last;
    }
}

// Puts frames of two channels at a place, from the codes behind their headers.
fn stereo_codes(block: &[u8], frames: usize, from: ImaStates, out: &mut [i16], at: usize)
    requires { (frames + 8 ≤ length block.now) × (length block.now % 8 ≡ 0) × (at + 2 * frames ≤ length out.old)
        × (from.left.index < 89) × (from.right.index < 89) }
    ensures buffer { Put out.old at
        (in_turn 1 frames (heard_from ima from.left (ima.codes 2 block.now 0)
        ∷ heard_from ima from.right (ima.codes 2 block.now 1) ∷ []))
        out.new }
{
    let mut left = from.left;
    let mut right = from.right;
    for i in 0..frames / 2 {
        let from = 8 + i + 4 * (i / 4);
        let to = at + 4 * i;
        let p = block[from] as u32;
        let q = block[from + 4] as u32;
        let a = decode_code(left, p % 16);
        let b = decode_code(right, q % 16);
        let c = decode_code(a, p / 16);
        let d = decode_code(b, q / 16);
        out[to] = a.last;
        out[to + 1] = b.last;
        out[to + 2] = c.last;
        out[to + 3] = d.last;
        left = c;
        right = d;
    }
    if frames % 2 == 1 {
        let i = frames / 2;
        let from = 8 + i + 4 * (i / 4);
        let to = at + 4 * i;
        let a = decode_code(left, block[from] as u32 % 16);
        let b = decode_code(right, block[from + 4] as u32 % 16);
        out[to] = a.last;
        out[to + 1] = b.last;
    }
}

// The codec of IMA blocks.
pub struct Ima;

impl BlockCodec for Ima {
    type State = ImaState;

    ghost meaning = { ima };

    fn header_valid(block: &[u8], channels: usize, channel: usize) -> bool {
        block[4 * channel + 2] <= 88
    }

    fn put_mono(block: &[u8], frames: usize, out: &mut [i16], at: usize) {
        let state = opened_at(block, 0);
        out[at] = state.last;
        mono_codes(block, frames - 1, state, out, at + 1);
    }

    fn put_stereo(block: &[u8], frames: usize, out: &mut [i16], at: usize) {
        let left = opened_at(block, 0);
        let right = opened_at(block, 4);
        out[at] = left.last;
        out[at + 1] = right.last;
        let from = ImaStates { left, right };
        stereo_codes(block, frames - 1, from, out, at + 2);
    }
}
