// Little-endian numbers read from bytes and put into them, a run of bytes copied to a place, and two
// runs compared.
//
// `u16_at` and `u32_at` are for callers that have tested the room; `u16_or_zero` and `u32_or_zero`
// take every place, and what lies past the end counts as 0.
#![tactic(auto)]

ghost use Rattle.std.specs.Prelude.{◌≡◌, ℕ, ◌+◌, ◌≤◌, ◌<◌, min, length, take, drop, slice_index};
ghost use Rattle.little.specs.Numbers.{number_at, bytes_of};
ghost use Rattle.little.specs.Writing.{Put};
ghost use Rattle.little.specs.Same.{same_bytes};

use units::BytePlace;

// The N bytes at a place.
fn bytes_at<const N: usize>(bytes: &[u8], at: usize) -> [u8; N]
    requires { at + N ≤ length bytes.now }
    ensures answer { (k : ℕ) → k < N → slice_index result k ≡ slice_index bytes.now (at + k) }
{
    let mut found = [0; N];
    found.copy_from_slice(&bytes[at..at + N]);
    found
}

// The N first bytes, where there are no more; the others are 0. It is no part of its caller, which is
// small without it.
#[inline(never)]
fn padded<const N: usize>(bytes: &[u8]) -> [u8; N]
    requires { length bytes.now ≤ N }
    ensures answer { (k : ℕ) → k < N → slice_index result k ≡ slice_index bytes.now k }
{
    let mut found = [0; N];
    found[..bytes.len()].copy_from_slice(bytes);
    found
}

// The N bytes at any place; what lies past the end counts as 0. The test is a sum that a caller which knows of more
// room has made already, so that none is left in the walk over a file's chunks.
fn bytes_or_zeros<const N: usize>(bytes: &[u8], at: usize) -> [u8; N]
    ensures answer { (k : ℕ) → k < N → slice_index result k ≡ slice_index bytes.now (at + k) }
{
    if at < bytes.len() && at + N <= bytes.len() {
        return bytes_at(bytes, at);
    }
    padded(&bytes[at.min(bytes.len())..])
}

// The 16-bit number at a place.
#[tactic(auto, using(crate::proofs::Reading::two_say))]
pub fn u16_at(bytes: &[u8], at: usize) -> u16
    requires { at + 2 ≤ length bytes.now }
    ensures answer { result ≡ number_at 2 bytes.now at }
{
    u16::from_le_bytes(bytes_at(bytes, at))
}

// The 32-bit number at a place.
#[tactic(auto, using(crate::proofs::Reading::four_say))]
pub fn u32_at(bytes: &[u8], at: usize) -> u32
    requires { at + 4 ≤ length bytes.now }
    ensures answer { result ≡ number_at 4 bytes.now at }
{
    u32::from_le_bytes(bytes_at(bytes, at))
}

// The 16-bit number at any place.
#[tactic(auto, using(crate::proofs::Reading::two_say))]
pub fn u16_or_zero(bytes: &[u8], at: usize) -> u16
    ensures answer { result ≡ number_at 2 bytes.now at }
{
    u16::from_le_bytes(bytes_or_zeros(bytes, at))
}

// The 32-bit number at any place.
#[tactic(auto, using(crate::proofs::Reading::four_say))]
pub fn u32_or_zero(bytes: &[u8], at: usize) -> u32
    ensures answer { result ≡ number_at 4 bytes.now at }
{
    u32::from_le_bytes(bytes_or_zeros(bytes, at))
}

// Copies sixteen bytes. They are all read before the first is written, so that a machine can move them as one.
fn put_sixteen(out: &mut [u8], bytes: &[u8])
    requires { (length bytes.now ≡ 16) × (length out.old ≡ 16) }
    ensures buffer { out.new ≡ bytes.now }
{
    let mut read = [0; 16];
    read.copy_from_slice(bytes);
    out.copy_from_slice(&read);
}

// Copies 128 bytes, sixteen after sixteen: the compiler would store one array of 128 from its end to its start, which
// a machine does more slowly.
fn put_many(out: &mut [u8], bytes: &[u8])
    requires { (length bytes.now ≡ 128) × (length out.old ≡ 128) }
    ensures buffer { out.new ≡ bytes.now }
{
    for k in 0..8 {
        let from = 16 * k;
        put_sixteen(&mut out[from..from + 16], &bytes[from..from + 16]);
    }
}

// Copies a run of bytes to a place, byte by byte.
fn put_few(out: &mut [u8], at: usize, bytes: &[u8])
    requires { at + length bytes.now ≤ length out.old }
    ensures buffer { Put out.old at bytes.now out.new }
{
    for i in 0..bytes.len() {
        out[at + i] = bytes[i];
    }
}

// Copies a run of bytes to a place, 128 at a turn. The last 128 are then copied whole, some perhaps a second time, so
// that none is left over. The library's copy of the whole, which is memcpy, takes more instructions, and a song added
// to a side then more than 1.1 of a copy.
fn put_turns(out: &mut [u8], at: usize, bytes: &[u8])
    requires bytes_in_bounds { at + length bytes.now ≤ length out.old }
    requires in_bounds { 128 ≤ length bytes.now }
    ensures buffer { Put out.old at bytes.now out.new }
{
    let turns = (bytes.len() - 1) / 128;
    for i in 0..turns {
        let from = 128 * i;
        put_many(
            &mut out[at + from..at + from + 128],
            &bytes[from..from + 128],
        );
    }
    let last = bytes.len() - 128;
    put_many(
        &mut out[at + last..at + last + 128],
        &bytes[last..last + 128],
    );
}

// How many bytes there are from a place to a multiple of sixteen behind it.
fn to_sixteen(at: usize) -> usize
    ensures bound { result ≤ 16 }
{
    16 - at % 16
}

// Copies a run of bytes to a place. The first few go ahead of the turns, which then start at a multiple of sixteen
// of the lent buffer, where a machine stores fastest: the sound of a file never stands at one.
#[tactic(auto, using(crate::proofs::Filling::few_copying))]
pub fn put_bytes(out: &mut [u8], at: usize, bytes: &[u8])
    requires { at + length bytes.now ≤ length out.old }
    ensures buffer { Put out.old at bytes.now out.new }
{
    if bytes.len() < 144 {
        put_few(out, at, bytes);
        return;
    }
    let few = to_sixteen(at);
    put_few(out, at, &bytes[..few]);
    put_turns(out, at + few, &bytes[few..]);
}

// Puts a 16-bit number at a place.
#[tactic(auto, using(crate::proofs::Reading::two_of))]
pub fn put_u16(out: &mut [u8], at: usize, value: u16)
    requires { at + 2 ≤ length out.old }
    ensures buffer { Put out.old at (bytes_of 2 value) out.new }
{
    put_bytes(out, at, &u16::to_le_bytes(value));
}

// Puts a 32-bit number at a place.
#[tactic(auto, using(crate::proofs::Reading::four_of))]
pub fn put_u32(out: &mut [u8], at: usize, value: u32)
    requires { at + 4 ≤ length out.old }
    ensures buffer { Put out.old at (bytes_of 4 value) out.new }
{
    put_bytes(out, at, &u32::to_le_bytes(value));
}

// Whether two runs of bytes are the same.
#[tactic(auto, using(crate::proofs::Comparing::same_pointwise))]
pub fn same_bytes(a: &[u8], b: &[u8]) -> bool
    ensures answer { result ≡ same_bytes a.now b.now }
{
    a == b
}

// The n bytes from a place on, or as many as there are: that very part of what is lent.
pub fn bytes_from(bytes: &[u8], from: BytePlace, n: BytePlace) -> &[u8]
    ensures part { result.now ≡ take n.0 (drop from.0 bytes.now) }
    ensures lent { result.ref_ptr.0 ≡ bytes.entry.ref_ptr.0 }
    ensures place { result.ref_ptr.1 ≡ bytes.entry.ref_ptr.1 + min from.0 (length bytes.now) }
{
    let rest = &bytes[from.0.min(bytes.len())..];
    &rest[..n.0.min(rest.len())]
}
