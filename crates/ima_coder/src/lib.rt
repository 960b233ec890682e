// One IMA block of a sound, coded into a lent buffer, and how many of its samples are chased.
//
// A block is coded in order of the output: in mono all bytes of the one channel, in stereo four bytes
// of each channel in turn. Where a last short block runs past the sound, each channel's last sample
// is coded again and again; that fill is not counted.
#![tactic(auto)]

ghost use Rattle.std.specs.Prelude.{◌≡◌, cond, ◌&&◌, [], ◌∷◌, ◌++◌, ◌+◌, ◌-◌, ◌*◌, ◌/◌, ◌≤◌, ◌<◌, min, length};
ghost use Rattle.little.specs.Writing.{Put};
ghost use Rattle.lists.specs.Turns.{in_turn};
ghost use Rattle.ima_code.specs.Code.{code_for, tracked, is_chased};
ghost use Rattle.ima_code.specs.Machine.{codes_of};
ghost use Rattle.ima_coder.specs.Part.{samples_of, packed, block_head, coded_part, channel_after, opened_with, channel_after_block, monos_from, lefts_from, rights_from, RanOver, RanBlock, BothRan};

use ima_code::{ImaState, encode_code};

// A channel while it is coded: its state, and how many of its samples were chased.
#[derive(Clone, Copy)]
pub struct Channel {
    pub state: ImaState,
    pub chased: u32,
}

// Both channels.
#[derive(Clone, Copy)]
pub struct Channels {
    pub left: Channel,
    pub right: Channel,
}

// Which samples of a sound are a channel's next: the first at index `at`, the others a stride apart. So many as
// `left` are there, and past index `last` the sample there is repeated.
#[derive(Clone, Copy)]
pub struct Samples {
    pub at: usize,
    pub stride: usize,
    pub last: usize,
    pub left: usize,
}

// Two samples coded: their codes in a byte, whether each is chased, and the state after them.
#[derive(Clone, Copy)]
pub struct Two {
    pub byte: u8,
    pub first: bool,
    pub second: bool,
    pub state: ImaState,
}

// 1 for a chased sample of the sound, 0 for others and for fill.
fn counted(there: bool, chased: bool) -> u32
    ensures answer { result ≡ cond (there && chased) 1 0 }
    ensures bound { result ≤ 1 }
{
    u32::from(there && chased)
}

// Codes n bytes of a channel, two samples to each; all of them are there. It stays beside `filled_bytes`, without whose
// tests it codes all blocks but the last.
fn real_bytes(
    sound: &[i16],
    which: Samples,
    n: usize,
    from: Channel,
    out: &mut [u8],
    to: usize,
) -> Channel
    requires { (which.last < length sound.now) × (which.stride * (2 * n) ≤ which.last + which.stride - which.at)
        × (which.at ≤ 4294967296) × (1 ≤ which.stride) × (which.stride ≤ 2) × (n ≤ 4096) × (to + n ≤ length out.old)
        × (from.state.index < 89) × (from.chased + 2 * n < 4294967296) }
    ensures ran { RanOver from (2 * n) (2 * n) (samples_of sound.now which (2 * n)) result
        out.old to out.new }
{
    let mut state = from.state;
    let mut chased = from.chased;
    let mut x = which.at;
    for i in 0..n {
        let stride = which.stride;
        let a = encode_code(state, sound[x]);
        let b = encode_code(a.state, sound[x + stride]);
        out[to + i] = (a.code + 16 * b.code) as u8;
        chased = chased + counted(true, a.chased) + counted(true, b.chased);
        state = b.state;
        x += stride + stride;
    }
    Channel { state, chased }
}

// Codes two samples, the second from the state after the first.
fn two_samples(state: ImaState, first: i16, second: i16) -> Two
    requires { (state.index < 89) }
    ensures coded { (result.byte ≡ code_for state first + 16 * code_for (tracked state first) second)
        × (result.first ≡ is_chased state first)
        × (result.second ≡ is_chased (tracked state first) second)
        × (result.state ≡ tracked (tracked state first) second)
        × (result.state.index < 89) }
{
    let a = encode_code(state, first);
    let b = encode_code(a.state, second);
    Two {
        byte: (a.code + 16 * b.code) as u8,
        first: a.chased,
        second: b.chased,
        state: b.state,
    }
}

// Codes n bytes of a channel as `real_bytes` does, where not all of the samples are there: past the last one that
// one is coded again, and only those that are there are counted.
fn filled_bytes(
    sound: &[i16],
    which: Samples,
    n: usize,
    from: Channel,
    out: &mut [u8],
    to: usize,
) -> Channel
    requires { (which.last < length sound.now) × (which.at ≤ 4294967296) × (1 ≤ which.stride) × (which.stride ≤ 2)
        × (n ≤ 4096) × (to + n ≤ length out.old)
        × (from.state.index < 89) × (from.chased + 2 * n < 4294967296) }
    ensures ran { RanOver from (2 * n) which.left (samples_of sound.now which (2 * n)) result
        out.old to out.new }
{
    let stride = which.stride;
    let last = which.last;
    let left = which.left;
    let mut state = from.state;
    let mut chased = from.chased;
    let mut x = which.at;
    for i in 0..n {
        let y = x.min(last);
        let z = (x + stride).min(last);
        let two = two_samples(state, sound[y], sound[z]);
        out[to + i] = two.byte;
        chased = chased + counted(2 * i < left, two.first) + counted(2 * i + 1 < left, two.second);
        state = two.state;
        x += stride + stride;
    }
    Channel { state, chased }
}

// Codes n bytes of a channel.
fn channel_bytes(
    sound: &[i16],
    which: Samples,
    n: usize,
    from: Channel,
    out: &mut [u8],
    to: usize,
) -> Channel
    requires { (which.last < length sound.now) × (which.stride * which.left ≤ which.last + which.stride - which.at)
        × (which.at ≤ 4294967296) × (1 ≤ which.stride) × (which.stride ≤ 2) × (n ≤ 4096) × (to + n ≤ length out.old)
        × (from.state.index < 89) × (from.chased + 2 * n < 4294967296) }
    ensures ran { RanOver from (2 * n) which.left (samples_of sound.now which (2 * n)) result
        out.old to out.new }
{
    if which.left < 2 * n {
        return filled_bytes(sound, which, n, from, out, to);
    }
    real_bytes(sound, which, n, from, out, to)
}

// Opens a block of a channel with a sample: puts its header.
fn open(sample: i16, from: Channel, out: &mut [u8], to: usize) -> Channel
    requires { (from.state.index < 89) × (to + 4 ≤ length out.old) }
    ensures opened { (result ≡ opened_with from sample)
        × (result.state.index < 89)
        × (result.chased ≡ from.chased)
        × Put out.old to (block_head sample from.state.index) out.new }
{
    let index = from.state.index;
    samples::put_sample(out, to, sample);
    out[to + 2] = index as u8;
    out[to + 3] = 0;
    Channel {
        state: ImaState {
            last: sample,
            index,
        },
        ..from
    }
}

// Opens a block of both channels.
fn open_both(left: i16, right: i16, from: Channels, out: &mut [u8], to: usize) -> Channels
    requires { (from.left.state.index < 89) × (from.right.state.index < 89) × (to + 8 ≤ length out.old) }
    ensures opened { (result.left ≡ opened_with from.left left)
        × (result.right ≡ opened_with from.right right)
        × (result.left.state.index < 89)
        × (result.right.state.index < 89)
        × (result.left.chased ≡ from.left.chased)
        × (result.right.chased ≡ from.right.chased)
        × Put out.old to (block_head left from.left.state.index ++ block_head right from.right.state.index)
        out.new }
{
    let left = open(left, from.left, out, to);
    let right = open(right, from.right, out, to + 4);
    Channels { left, right }
}

// Codes the block of a mono sound that opens at a frame.
pub fn mono_block(
    sound: &[i16],
    frame: usize,
    groups: usize,
    from: Channel,
    out: &mut [u8],
    to: usize,
) -> Channel
    requires { (frame < length sound.now) × (length sound.now ≤ 536870912) × (groups ≤ 1023)
        × (to + 4 * groups + 4 ≤ length out.old) × (from.state.index < 89)
        × (from.chased + 8 * groups < 4294967296) }
    ensures ran { RanBlock from (8 * groups) (length sound.now - frame)
        (monos_from sound.now frame (8 * groups + 1)) result out.old to out.new }
{
    let n = sound.len();
    let channel = open(sound[frame], from, out, to);
    let codes = Samples {
        at: frame + 1,
        stride: 1,
        last: n - 1,
        left: n - (frame + 1),
    };
    channel_bytes(sound, codes, 4 * groups, channel, out, to + 4)
}

// Codes eight frames of both channels: four bytes of the left one, then four of the right one.
fn stereo_group(
    sound: &[i16],
    at: usize,
    left: usize,
    from: Channels,
    out: &mut [u8],
    to: usize,
) -> Channels
    requires { (2 ≤ length sound.now) × (2 * left ≤ length sound.now - at) × (at < 4294967296) × (to + 8 ≤ length out.old)
        × (from.left.state.index < 89) × (from.right.state.index < 89)
        × (from.left.chased + 8 < 4294967296) × (from.right.chased + 8 < 4294967296) }
    ensures ran { BothRan from 8
        (channel_after from.left left (lefts_from sound.now at 8))
        (channel_after from.right left (rights_from sound.now at 8))
        (packed (codes_of from.left.state (lefts_from sound.now at 8))
        ++ packed (codes_of from.right.state (rights_from sound.now at 8)))
        result out.old to out.new }
{
    let n = sound.len();
    let lefts = Samples {
        at,
        stride: 2,
        last: n - 2,
        left,
    };
    let rights = Samples {
        at: at + 1,
        last: n - 1,
        ..lefts
    };
    let left = channel_bytes(sound, lefts, 4, from.left, out, to);
    let right = channel_bytes(sound, rights, 4, from.right, out, to + 4);
    Channels { left, right }
}

// Codes groups of eight frames of both channels, four bytes of each channel in turn.
fn stereo_groups(
    sound: &[i16],
    at: usize,
    groups: usize,
    from: Channels,
    out: &mut [u8],
    to: usize,
) -> Channels
    requires { (2 ≤ length sound.now) × (at ≤ length sound.now) × (at ≤ 1073741824) × (groups ≤ 511)
        × (to + 8 * groups ≤ length out.old) × (from.left.state.index < 89) × (from.right.state.index < 89)
        × (from.left.chased + 8 * groups < 4294967296) × (from.right.chased + 8 * groups < 4294967296) }
    ensures ran { BothRan from (8 * groups)
        (channel_after from.left ((length sound.now - at) / 2) (lefts_from sound.now at (8 * groups)))
        (channel_after from.right ((length sound.now - at) / 2) (rights_from sound.now at (8 * groups)))
        (in_turn 4 groups (packed (codes_of from.left.state (lefts_from sound.now at (8 * groups)))
        ∷ packed (codes_of from.right.state (rights_from sound.now at (8 * groups))) ∷ []))
        result out.old to out.new }
{
    let mut channels = from;
    let mut there = (sound.len() - at) / 2;
    for i in 0..groups {
        channels = stereo_group(sound, at + 16 * i, there, channels, out, to + 8 * i);
        there = there.saturating_sub(8);
    }
    channels
}

// Codes the block of a stereo sound that opens at an index of the sound.
pub fn stereo_block(
    sound: &[i16],
    at: usize,
    groups: usize,
    from: Channels,
    out: &mut [u8],
    to: usize,
) -> Channels
    requires { (at + 2 ≤ length sound.now) × (length sound.now ≤ 536870912) × (groups ≤ 511)
        × (to + 8 * groups + 8 ≤ length out.old)
        × (from.left.state.index < 89) × (from.right.state.index < 89)
        × (from.left.chased + 8 * groups < 4294967296) × (from.right.chased + 8 * groups < 4294967296) }
    ensures ran { BothRan from (8 * groups)
        (channel_after_block from.left ((length sound.now - at) / 2) (lefts_from sound.now at (8 * groups + 1)))
        (channel_after_block from.right ((length sound.now - at) / 2) (rights_from sound.now at (8 * groups + 1)))
        (in_turn 4 (groups + 1) (coded_part from.left.state.index (lefts_from sound.now at (8 * groups + 1))
        ∷ coded_part from.right.state.index (rights_from sound.now at (8 * groups + 1)) ∷ []))
        result out.old to out.new }
{
    let channels = open_both(sound[at], sound[at + 1], from, out, to);
    stereo_groups(sound, at + 2, groups, channels, out, to + 8)
}
