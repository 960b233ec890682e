// One IMA code: the steps, what a code does to a channel, and the code of a sample.
#![tactic(auto)]

ghost use Rattle.std.specs.Prelude.{◌≡◌, cond, ◌+◌, ◌-◌, ◌*◌, ◌/◌, ◌≤◌, ◌<◌, ltb, leb, pos, nat_abs, ◌+ℤ◌, ◌-ℤ◌, get_or};
ghost use Rattle.samples.specs.Sound.{hold};
ghost use Rattle.ima_code.specs.Code.{step_at, difference_size, signed_by, index_from, held_indices, after_code, bit_if, left_of, bits_for, code_for, tracked, is_chased};

// A channel between two codes: its last sample, and the index of its step.
//
// That the index is below 89 is no invariant of the type but a clause where it is needed: `ima_opened` makes a state of
// any index byte before it is tested, `after_code` makes one as a plain record, and the laws of both hold of every state.
#[derive(Clone, Copy)]
pub struct ImaState {
    pub last: i16,
    pub index: usize,
}

// What coding a sample gives: its code, whether it is chased, and the channel after it.
#[derive(Clone, Copy)]
pub struct SampleCode {
    pub code: u32,
    pub chased: bool,
    pub state: ImaState,
}

// The bits of a magnitude, and the size of the difference that they say.
#[derive(Clone, Copy)]
pub struct Bits {
    pub code: u32,
    pub size: u32,
}

// The steps by their index; and one less than each number up to 97, held within 0..88, so that an index and one more
// than its move lead to the index after it. They are one static, so that a loop needs one place of it alone.
struct Tables {
    steps: [u16; 89],
    held: [u8; 98],
}

static TABLES: Tables = Tables {
    steps: [
        7, 8, 9, 10, 11, 12, 13, 14, 16, 17, 19, 21, 23, 25, 28, 31, 34, 37, 41, 45, 50, 55, 60,
        66, 73, 80, 88, 97, 107, 118, 130, 143, 157, 173, 190, 209, 230, 253, 279, 307, 337, 371,
        408, 449, 494, 544, 598, 658, 724, 796, 876, 963, 1060, 1166, 1282, 1411, 1552, 1707, 1878,
        2066, 2272, 2499, 2749, 3024, 3327, 3660, 4026, 4428, 4871, 5358, 5894, 6484, 7132, 7845,
        8630, 9493, 10442, 11487, 12635, 13899, 15289, 16818, 18500, 20350, 22385, 24623, 27086,
        29794, 32767,
    ],
    held: [
        0, 0, 1, 2, 3, 4, 5, 6, 7, 8, 9, 10, 11, 12, 13, 14, 15, 16, 17, 18, 19, 20, 21, 22, 23,
        24, 25, 26, 27, 28, 29, 30, 31, 32, 33, 34, 35, 36, 37, 38, 39, 40, 41, 42, 43, 44, 45, 46,
        47, 48, 49, 50, 51, 52, 53, 54, 55, 56, 57, 58, 59, 60, 61, 62, 63, 64, 65, 66, 67, 68, 69,
        70, 71, 72, 73, 74, 75, 76, 77, 78, 79, 80, 81, 82, 83, 84, 85, 86, 87, 88, 88, 88, 88, 88,
        88, 88, 88, 88,
    ],
};

// The step of an index.
#[tactic(auto, unfolding(crate::specs::Code::step_at))]
fn step_of(index: usize) -> u32
    requires { index < 89 }
    ensures answer { result ≡ step_at index }
    ensures bound { result ≤ 32767 }
{
    u32::from(TABLES.steps[index])
}

// A value where a bit is set, else 0.
fn part(on: bool, value: u32) -> u32
    ensures answer { result ≡ cond on value 0 }
    ensures bound { result ≤ value }
{
    if on { value } else { 0 }
}

// The size of the difference of a code of which `low` are the lower three bits, each quotient rounded
// down by itself.
#[tactic(auto, unfolding(crate::specs::Code::difference_size, crate::specs::Code::has_bit))]
fn size(step: u32, low: u32) -> u32
    requires { (step ≤ 32767) × (low < 8) }
    ensures answer { result ≡ difference_size step low }
    ensures bound { result ≤ 65535 }
{
    let four = part(low / 4 == 1, step);
    let two = low / 2 % 2 * (step / 2);
    let one = low % 2 * (step / 4);
    step / 8 + four + two + one
}

// A size as a difference, downward or upward.
#[tactic(auto, unfolding(crate::specs::Code::signed_by))]
fn toward(down: bool, size: u32) -> i32
    requires { size ≤ 65535 }
    ensures answer { result ≡ signed_by down size }
{
    if down { -(size as i32) } else { size as i32 }
}

// One more than a code moves the index: nothing for the lower four, which move it down by one.
fn rise(low: u32) -> usize
    requires { low < 8 }
    ensures answer { result ≡ cond (ltb low 4) 0 (2 * low - 5) }
    ensures bound { result ≤ 9 }
{
    if low < 4 { 0 } else { 2 * low as usize - 5 }
}

// The index after a code of which `low` are the lower three bits. All codes go the same way, since no
// machine foresees a branch on them.
#[tactic(auto, using(crate::proofs::Laws::index_risen))]
fn moved(index: usize, low: u32) -> usize
    requires { (index < 89) × (low < 8) }
    ensures answer { result ≡ index_from index low }
    ensures bound { result < 89 }
{
    (index + rise(low)).saturating_sub(1).min(88)
}

// One less than a number, held within 0..88.
fn held_of(number: usize) -> usize
    requires { number < 98 }
    ensures answer { result ≡ get_or held_indices number 0 }
    ensures bound { result < 89 }
{
    usize::from(TABLES.held[number])
}

// The same by a table, for decoding: the back end would make branches of the tests.
#[tactic(auto, using(crate::proofs::Laws::held_is, crate::proofs::Laws::index_risen))]
fn moved_by(index: usize, low: u32) -> usize
    requires { (index < 89) × (low < 8) }
    ensures answer { result ≡ index_from index low }
    ensures bound { result < 89 }
{
    held_of(index + rise(low))
}

// A sample as a number from 0 on.
fn raised(sample: i16) -> u16
    ensures answer { result ≡ nat_abs (sample +ℤ pos 32768) }
{
    (i32::from(sample) + 32768) as u16
}

// The sample of such a number.
fn lowered(number: u16) -> i16
    ensures answer { result ≡ pos number -ℤ pos 32768 }
{
    (i32::from(number) - 32768) as i16
}

// Such a number for the way down, and its mirror image for the way up.
fn mirrored(down: bool, number: u16) -> u16
    ensures answer { result ≡ cond down number (65535 - number) }
{
    if down { number } else { 65535 - number }
}

// A sample moved by a size, and held to 16 bits. In the mirror the way up is a way down, so that both
// ways go the same way and have one bound to test.
fn moved_sample(sample: i16, down: bool, size: u32) -> i16
    requires { size ≤ 65535 }
    ensures answer { result ≡ hold (sample +ℤ signed_by down size) }
{
    let from = mirrored(down, raised(sample));
    let to = from.saturating_sub(size as u16);
    lowered(mirrored(down, to))
}

// A channel after a code.
pub fn decode_code(state: ImaState, code: u32) -> ImaState
    requires { state.index < 89 }
    ensures answer { result ≡ after_code state code }
    ensures index_bound { result.index < 89 }
{
    let low = code % 8;
    let size = size(step_of(state.index), low);
    ImaState {
        last: moved_sample(state.last, code / 8 % 2 == 1, size),
        index: moved_by(state.index, low),
    }
}

// The lower two bits of a code for what a magnitude has beside the step: 2 if half the step is in it,
// 1 if a quarter is in what that leaves.
#[tactic(auto, unfolding(crate::specs::Code::bit_if, crate::specs::Code::left_of, crate::specs::Code::difference_size, crate::specs::Code::has_bit))]
fn lower_bits(step: u32, rest: u32) -> Bits
    requires { step ≤ 32767 }
    ensures bits { (result.code ≡ bit_if 2 (step / 2) rest + bit_if 1 (step / 4) (left_of (step / 2) rest))
        × (result.code < 4)
        × (result.size ≡ difference_size step result.code)
        × (result.size ≤ 32767) }
{
    let half = step / 2;
    let quarter = step / 4;
    let eighth = step / 8;
    if half <= rest {
        if quarter <= rest - half {
            return Bits {
                code: 3,
                size: eighth + half + quarter,
            };
        }
        return Bits {
            code: 2,
            size: eighth + half,
        };
    }
    if quarter <= rest {
        return Bits {
            code: 1,
            size: eighth + quarter,
        };
    }
    Bits {
        code: 0,
        size: eighth,
    }
}

// The lower three bits of a code for a magnitude: 4 if the step is in it, and the lower two.
#[tactic(auto, unfolding(crate::specs::Code::bits_for, crate::specs::Code::bit_if, crate::specs::Code::left_of, crate::specs::Code::difference_size, crate::specs::Code::has_bit))]
fn bits_for(step: u32, magnitude: u32) -> Bits
    requires { step ≤ 32767 }
    ensures bits { (result.code ≡ bits_for step magnitude)
        × (result.code < 8)
        × (result.size ≡ difference_size step result.code)
        × (result.size ≤ 65535) }
{
    if magnitude < step {
        return lower_bits(step, magnitude);
    }
    let bits = lower_bits(step, magnitude - step);
    Bits {
        code: 4 + bits.code,
        size: step + bits.size,
    }
}

// Codes a difference of a magnitude, downward or upward.
fn code_difference(state: ImaState, down: bool, step: u32, magnitude: u32) -> SampleCode
    requires { (state.index < 89) × (step ≡ step_at state.index) }
    ensures coded { (result.code ≡ cond down 8 0 + bits_for step magnitude)
        × (result.code < 16)
        × (result.chased ≡ leb (2 * step) magnitude)
        × (result.state ≡ after_code state (cond down 8 0 + bits_for step magnitude))
        × (result.state.index < 89) }
{
    let bits = bits_for(step, magnitude);
    let last = samples::held(i32::from(state.last) + toward(down, bits.size));
    let index = moved(state.index, bits.code);
    SampleCode {
        code: part(down, 8) + bits.code,
        chased: 2 * step <= magnitude,
        state: ImaState { last, index },
    }
}

// Codes a sample. The sign is branched on first: each branch then needs one bound of the 16 bits.
pub fn encode_code(state: ImaState, sample: i16) -> SampleCode
    requires { state.index < 89 }
    ensures coded { (result.code ≡ code_for state sample)
        × (result.code < 16)
        × (result.chased ≡ is_chased state sample)
        × (result.state ≡ tracked state sample)
        × (result.state.index < 89) }
{
    let step = step_of(state.index);
    let last = i32::from(state.last);
    let sample = i32::from(sample);
    if sample < last {
        return code_difference(state, true, step, (last - sample) as u32);
    }
    code_difference(state, false, step, (sample - last) as u32)
}
