// One Microsoft nibble: what it does to a channel.
#![tactic(auto)]

ghost use Rattle.std.specs.Prelude.{◌≡◌, ◌≤◌, ◌<◌, pos, nat_abs, get_or};
ghost use Rattle.ms_code.specs.Nibble.{factors, Tame, signed_nibble, predicted, held_delta, after_nibble};

// A channel between two nibbles: the pair of its predictor, its delta, and its last two samples.
//
// That its numbers are `Tame` is no invariant of the type but a clause where it is needed: `ms_opened` makes a state of any
// header bytes, `after_nibble` makes one as a plain record, and the laws of both hold of every state.
#[derive(Clone, Copy)]
pub struct MsState {
    pub first: i32,
    pub second: i32,
    pub delta: i32,
    pub newer: i16,
    pub older: i16,
}

// What each nibble multiplies the delta by, in parts of 256.
static FACTORS: [i32; 16] = [
    230, 230, 230, 230, 307, 409, 512, 614, 768, 614, 512, 409, 307, 230, 230, 230,
];

// The factor of a nibble.
fn factor_of(nibble: u32) -> i32
    requires { nibble < 16 }
    ensures answer { result ≡ get_or factors nibble (pos 0) }
{
    FACTORS[nibble as usize]
}

// A nibble as a signed number of four bits.
#[tactic(auto, unfolding(crate::specs::Nibble::signed_nibble))]
fn signed(nibble: u32) -> i32
    requires { nibble < 16 }
    ensures answer { result ≡ signed_nibble nibble }
{
    if nibble < 8 {
        nibble as i32
    } else {
        nibble as i32 - 16
    }
}

// The prediction of the next sample; the division goes toward zero.
fn predict(state: MsState) -> i32
    requires { Tame state }
    ensures answer { result ≡ predicted state }
{
    (i32::from(state.newer) * state.first + i32::from(state.older) * state.second) / 256
}

// A delta held within 16..2,796,202, so that its next product fits 32 bits.
#[tactic(auto, using(crate::proofs::Laws::clamped))]
fn held_delta(value: i32) -> i32
    ensures answer { result ≡ held_delta value }
    ensures bound { nat_abs result ≤ 2796202 }
{
    value.clamp(16, 2796202)
}

// A channel after a nibble.
pub fn decode_nibble(state: MsState, nibble: u32) -> MsState
    requires { Tame state × (nibble < 16) }
    ensures answer { result ≡ after_nibble state nibble }
    ensures tame { Tame result }
{
    let delta = state.delta;
    let newer = samples::held(predict(state) + signed(nibble) * delta);
    MsState {
        delta: held_delta(delta * factor_of(nibble) / 256),
        newer,
        older: state.newer,
        ..state
    }
}
