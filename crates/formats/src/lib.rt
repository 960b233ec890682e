// What the chunks `fmt `, `data` and `fact` say, the rules that they must keep, and the bytes of `fmt `
// and `fact`, as they are written.
//
// What a chunk says is a total value of its bytes. What it must keep is split in two: its form, of
// the bytes alone, and its rule, of the value; a writer needs the rule and not the form.
#![tactic(auto)]

ghost use Rattle.std.specs.Prelude.{◌≡◌, true, ◌||◌, ◌++◌, ◌+◌, ◌*◌, ◌/◌, ◌%◌, ◌≤◌, ◌<◌, eqb, pos, length, get_or};
ghost use Rattle.little.specs.Numbers.{bytes_of};
ghost use Rattle.little.specs.Writing.{Put};
ghost use Rattle.samples.specs.Sound.{sample_bytes};
ghost use Rattle.formats.specs.Format.{format_of, samples_field, extended, pair_at, pairs_form, average, format_form, ima_samples, ms_samples, codable, ima_stored, plain_format, ima_format};
ghost use Rattle.formats.specs.Bytes.{average_of, shared_bytes, extension_bytes, pairs_bytes, coefficient_bytes, format_bytes, fact_bytes};
ghost use Rattle.formats.specs.Format.{pairs, shared, pcm_rule, blocked, ima_rule, microsoft_rule, format_rule};
ghost use Rattle.formats.specs.Frames.{whole_blocks, frames_of, fact_form, needs_fact, blocks_in, count_fits, frames_rule};

use units::{BytePlace, Frames};

// Tags stay numbers: a record that is lent to `write` may have any, and is then refused 9.
pub const PCM: u16 = 1;

pub const MICROSOFT: u16 = 2;

pub const IMA: u16 = 17;

// The seven pairs of a Microsoft `fmt `.
pub const PAIRS: [[i16; 2]; 7] = [
    [256, 0],
    [512, -256],
    [0, 0],
    [192, 64],
    [240, 0],
    [460, -208],
    [392, -232],
];

// How the sound is coded; samples is the samples of a block in each channel, 1 for PCM.
#[derive(Clone, Copy)]
pub struct Format {
    pub tag: u16,
    pub channels: u16,
    pub rate: u32,
    pub bits: u16,
    pub align: u16,
    pub samples: u16,
}

// The samples of a block, as a `fmt ` stores them.
#[tactic(auto, unfolding(crate::specs::Format::samples_field))]
fn samples_in(bytes: &[u8], tag: u16) -> u16
    ensures answer { result ≡ samples_field bytes.now tag }
{
    if tag == PCM {
        1
    } else {
        little::u16_or_zero(bytes, 18)
    }
}

// What a `fmt ` says.
#[tactic(auto, unfolding(crate::specs::Format::format_of))]
pub fn format_of(bytes: &[u8]) -> Format
    ensures answer { result ≡ format_of bytes.now }
{
    let tag = little::u16_or_zero(bytes, 0);
    Format {
        tag,
        channels: little::u16_or_zero(bytes, 2),
        rate: little::u32_or_zero(bytes, 4),
        bits: little::u16_or_zero(bytes, 14),
        align: little::u16_or_zero(bytes, 12),
        samples: samples_in(bytes, tag),
    }
}

// Whether a `fmt ` is of some size, and has an extension of some size within it.
#[tactic(auto, unfolding(crate::specs::Format::extended))]
fn has_extension(bytes: &[u8], size: usize, extension: usize) -> bool
    ensures answer { result ≡ extended size extension bytes.now }
{
    let stored = little::u16_or_zero(bytes, 16) as usize;
    size <= bytes.len() && extension <= stored && 18 + stored <= bytes.len()
}

// Whether a pair stands at a place.
#[tactic(auto, unfolding(crate::specs::Format::pair_at))]
fn has_pair(bytes: &[u8], at: usize, pair: [i16; 2]) -> bool
    requires { at ≤ 65536 }
    ensures answer { result ≡ pair_at bytes.now at pair }
{
    let first = little::u16_or_zero(bytes, at);
    let second = little::u16_or_zero(bytes, at + 2);
    first == samples::to_bits(pair[0]) && second == samples::to_bits(pair[1])
}

// Whether the seven pairs follow a pair count of 7.
#[tactic(auto, unfolding(crate::specs::Format::pairs_form))]
fn has_pairs(bytes: &[u8]) -> bool
    ensures answer { result ≡ pairs_form bytes.now }
{
    let count = little::u16_or_zero(bytes, 20);
    if count != 7 {
        return false;
    }
    for (i, pair) in PAIRS.iter().enumerate() {
        if !has_pair(bytes, 22 + 4 * i, *pair) {
            return false;
        }
    }
    true
}

// Whether the average is rate x align.
#[tactic(auto, unfolding(crate::specs::Format::average))]
fn has_average(bytes: &[u8]) -> bool
    ensures answer { result ≡ average bytes.now }
{
    let rate = little::u32_or_zero(bytes, 4) as u64;
    let align = little::u16_or_zero(bytes, 12) as u64;
    let stored = little::u32_or_zero(bytes, 8) as u64;
    stored == rate * align
}

// Whether a `fmt ` has the form that its tag asks for.
#[tactic(auto, unfolding(crate::specs::Format::format_form))]
pub fn format_form(bytes: &[u8]) -> bool
    ensures answer { result ≡ format_form bytes.now }
{
    if bytes.len() < 16 {
        return false;
    }
    match little::u16_or_zero(bytes, 0) {
        PCM => has_average(bytes),
        IMA => has_extension(bytes, 20, 2),
        MICROSOFT => has_extension(bytes, 50, 32) && has_pairs(bytes),
        _ => false,
    }
}

// Whether the channels and the rate are ones that are taken.
#[tactic(auto, unfolding(crate::specs::Format::shared))]
fn shared_rule(format: Format) -> bool
    ensures answer { result ≡ shared format }
{
    (1..=2).contains(&format.channels) && (1..=192000).contains(&format.rate)
}

// Whether PCM sound has 8 or 16 bits, and frames of that size.
#[tactic(auto, unfolding(crate::specs::Format::pcm_rule))]
fn pcm_rule(format: Format) -> bool
    ensures answer { result ≡ pcm_rule format }
{
    let frame = format.channels as u32 * format.bits as u32 / 8;
    matches!(format.bits, 8 | 16) && format.align as u32 == frame && format.samples == 1
}

// Whether ADPCM sound has 4 bits, and blocks of a size that is taken.
#[tactic(auto, unfolding(crate::specs::Format::blocked))]
fn blocked_rule(format: Format) -> bool
    ensures answer { result ≡ blocked format }
{
    let least = 8 * format.channels as u32;
    format.bits == 4 && (least..=4096).contains(&(format.align as u32))
}

// The samples of an IMA block in each channel: one for the header, and one for each code.
#[tactic(auto, unfolding(crate::specs::Format::ima_samples))]
pub fn ima_samples(channels: usize, align: usize) -> usize
    requires { (1 ≤ channels) × (4 * channels ≤ align) × (align ≤ 4096) }
    ensures answer { result ≡ ima_samples channels align }
    ensures bound { result ≤ 8193 }
{
    (align - 4 * channels) * 2 / channels + 1
}

// The samples of a Microsoft block in each channel: two for the header, and one for each nibble. As one function with
// the two constants as parameters, this and the one above would say less.
#[tactic(auto, unfolding(crate::specs::Format::ms_samples))]
fn ms_samples(channels: usize, align: usize) -> usize
    requires { (1 ≤ channels) × (7 * channels ≤ align) × (align ≤ 4096) }
    ensures answer { result ≡ ms_samples channels align }
{
    (align - 7 * channels) * 2 / channels + 2
}

// Whether IMA blocks hold whole words, and the samples that fill them.
#[tactic(auto, unfolding(crate::specs::Format::ima_rule, crate::specs::Format::blocked))]
fn ima_rule(format: Format) -> bool
    requires { 1 ≤ format.channels }
    ensures answer { result ≡ ima_rule format }
{
    if !blocked_rule(format) {
        return false;
    }
    let align = format.align as usize;
    let channels = format.channels as usize;
    align % (4 * channels) == 0 && format.samples as usize == ima_samples(channels, align)
}

// Whether Microsoft blocks hold the samples that fill them.
#[tactic(auto, unfolding(crate::specs::Format::microsoft_rule, crate::specs::Format::blocked))]
fn microsoft_rule(format: Format) -> bool
    requires { 1 ≤ format.channels }
    ensures answer { result ≡ microsoft_rule format }
{
    if !blocked_rule(format) {
        return false;
    }
    let align = format.align as usize;
    let channels = format.channels as usize;
    format.samples as usize == ms_samples(channels, align)
}

// Whether what a `fmt ` says is taken.
#[tactic(auto, unfolding(crate::specs::Format::format_rule, crate::specs::Format::shared))]
pub fn format_rule(format: Format) -> bool
    ensures answer { result ≡ format_rule format }
{
    if !shared_rule(format) {
        return false;
    }
    match format.tag {
        PCM => pcm_rule(format),
        IMA => ima_rule(format),
        MICROSOFT => microsoft_rule(format),
        _ => false,
    }
}

// The format of PCM sound.
#[tactic(auto, unfolding(crate::specs::Format::plain_format))]
pub fn plain(channels: u16, rate: u32, bits: u16) -> Format
    requires { (channels ≤ 2) × (bits ≤ 16) }
    ensures answer { result ≡ plain_format channels rate bits }
{
    Format {
        tag: PCM,
        channels,
        rate,
        bits,
        align: channels * bits / 8,
        samples: 1,
    }
}

// Whether IMA has blocks of so many channels and this align.
#[tactic(auto, unfolding(crate::specs::Format::codable))]
pub fn is_codable(channels: usize, align: usize) -> bool
    ensures answer { result ≡ codable channels align }
{
    (1..=2).contains(&channels)
        && align % (4 * channels) == 0
        && (8 * channels..=4096).contains(&align)
}

// The samples of an IMA block in each channel; 0, where there are no blocks of so many channels and
// this align.
#[tactic(auto, unfolding(crate::specs::Format::ima_stored, crate::specs::Format::codable))]
fn ima_stored(channels: u16, align: u16) -> u16
    ensures answer { result ≡ ima_stored channels align }
{
    if !is_codable(channels as usize, align as usize) {
        return 0;
    }
    ima_samples(channels as usize, align as usize) as u16
}

// The format of IMA sound in blocks of an align; no file has it where there are no such blocks.
#[tactic(auto, unfolding(crate::specs::Format::ima_format))]
pub fn ima(channels: u16, rate: u32, align: u16) -> Format
    ensures answer { result ≡ ima_format channels rate align }
{
    Format {
        tag: IMA,
        channels,
        rate,
        bits: 4,
        align,
        samples: ima_stored(channels, align),
    }
}

// How many whole blocks some bytes of sound are; none, where a block has no bytes.
#[tactic(auto, unfolding(crate::specs::Frames::blocks_in))]
fn blocks_in(format: Format, sound: BytePlace) -> usize
    ensures answer { result ≡ blocks_in format sound }
{
    sound.0.checked_div(format.align as usize).unwrap_or(0)
}

// Whether sound data are whole frames or blocks.
#[tactic(auto, unfolding(crate::specs::Frames::whole_blocks))]
pub fn whole_blocks(format: Format, sound: BytePlace) -> bool
    ensures answer { result ≡ whole_blocks format sound }
{
    let align = format.align as usize;
    0 < align && sound.0 % align == 0
}

// The frames of the sound: of PCM by its length, of ADPCM by the fact.
#[tactic(auto, unfolding(crate::specs::Frames::frames_of, crate::specs::Frames::blocks_in))]
pub fn frames_of(format: Format, sound: BytePlace, fact: &[u8]) -> Frames
    requires { sound.0 < 4294967296 }
    ensures answer { result ≡ frames_of format sound fact.now }
{
    if format.tag == PCM {
        let blocks = blocks_in(format, sound);
        return Frames(blocks as u32);
    }
    Frames(little::u32_or_zero(fact, 0))
}

// Whether a fact has room for its count.
#[tactic(auto, unfolding(crate::specs::Frames::fact_form))]
pub fn fact_form(fact: &[u8]) -> bool
    ensures answer { result ≡ fact_form fact.now }
{
    4 <= fact.len()
}

// Whether sound of this format needs a fact.
#[tactic(auto, unfolding(crate::specs::Frames::needs_fact))]
pub fn needs_fact(format: Format) -> bool
    ensures answer { result ≡ needs_fact format }
{
    format.tag != PCM
}

// Whether a number of frames fills some blocks, the last one whole or in part. No product is made, as
// it may pass 64 bits: the blocks that the frames fill are a quotient, rounded up.
#[tactic(auto, unfolding(crate::specs::Frames::count_fits))]
fn count_fits(blocks: usize, samples: u16, frames: u32) -> bool
    ensures answer { result ≡ count_fits blocks samples frames }
{
    if blocks == 0 {
        return frames == 0;
    }
    if samples < 1 {
        return false;
    }
    (frames as usize).div_ceil(samples as usize) == blocks
}

// Whether a number of frames is one that some bytes of sound can have.
#[tactic(auto, unfolding(crate::specs::Frames::frames_rule))]
pub fn frames_rule(format: Format, sound: BytePlace, frames: Frames) -> bool
    ensures answer { result ≡ frames_rule format sound frames }
{
    let blocks = blocks_in(format, sound);
    if format.tag == PCM {
        return frames.0 as usize == blocks;
    }
    count_fits(blocks, format.samples, frames.0)
}

// ---- writing

// The bytes that a `fmt ` takes.
pub fn format_size(format: Format) -> usize
    ensures answer { result ≡ length (format_bytes format) }
    ensures bound { result ≤ 50 }
    ensures even { result % 2 ≡ 0 }
{
    match format.tag {
        IMA => 20,
        MICROSOFT => 50,
        _ => 16,
    }
}

// The bytes of a second, where a block's samples share them: rounded down.
fn shared_by(bytes: u32, samples: u16) -> u32
    requires le_samples { 1 ≤ samples }
    requires bytes_bound { bytes ≤ 192000 * 4096 }
    ensures answer { result ≡ bytes / samples }
{
    bytes / samples as u32
}

// The bytes of a second: of ADPCM, rounded down.
fn average_of(format: Format) -> u32
    requires { format_rule format ≡ true }
    ensures answer { result ≡ average_of format }
{
    let bytes = format.rate * format.align as u32;
    if format.tag == PCM {
        return bytes;
    }
    shared_by(bytes, format.samples)
}

// Puts tag, channels and rate.
fn put_kind(out: &mut [u8], at: usize, format: Format)
    requires { at + 8 ≤ length out.old }
    ensures buffer { Put out.old at
        (bytes_of 2 format.tag ++ (bytes_of 2 format.channels ++ bytes_of 4 format.rate)) out.new }
{
    little::put_u16(out, at, format.tag);
    little::put_u16(out, at + 2, format.channels);
    little::put_u32(out, at + 4, format.rate);
}

// Puts average, align and bits.
fn put_sizes(out: &mut [u8], at: usize, format: Format)
    requires format_value { format_rule format ≡ true }
    requires at_in_bounds { at + 8 ≤ length out.old }
    ensures buffer { Put out.old at
        (bytes_of 4 (average_of format) ++ (bytes_of 2 format.align ++ bytes_of 2 format.bits)) out.new }
{
    let average = average_of(format);
    little::put_u32(out, at, average);
    little::put_u16(out, at + 4, format.align);
    little::put_u16(out, at + 6, format.bits);
}

// Puts what every `fmt ` has.
fn put_shared(out: &mut [u8], at: usize, format: Format)
    requires format_value { format_rule format ≡ true }
    requires at_in_bounds { at + 16 ≤ length out.old }
    ensures buffer { Put out.old at (shared_bytes format) out.new }
{
    put_kind(out, at, format);
    put_sizes(out, at + 8, format);
}

// Puts the size of an extension, and the samples of a block.
fn put_extension(out: &mut [u8], at: usize, size: u16, format: Format)
    requires { at + 4 ≤ length out.old }
    ensures buffer { Put out.old at (extension_bytes size format) out.new }
{
    little::put_u16(out, at, size);
    little::put_u16(out, at + 2, format.samples);
}

// Puts a pair.
fn put_pair(out: &mut [u8], at: usize, pair: [i16; 2])
    requires { at + 4 ≤ length out.old }
    ensures buffer { Put out.old at
        (sample_bytes (get_or pair 0 (pos 0)) ++ sample_bytes (get_or pair 1 (pos 0))) out.new }
{
    samples::put_sample(out, at, pair[0]);
    samples::put_sample(out, at + 2, pair[1]);
}

// Puts the seven pairs.
fn put_pairs(out: &mut [u8], at: usize)
    requires { at + 28 ≤ length out.old }
    ensures buffer { Put out.old at (pairs_bytes pairs) out.new }
{
    for (i, pair) in PAIRS.iter().enumerate() {
        put_pair(out, at + 4 * i, *pair);
    }
}

// Puts the pair count and the seven pairs.
fn put_coefficients(out: &mut [u8], at: usize)
    requires { at + 30 ≤ length out.old }
    ensures buffer { Put out.old at coefficient_bytes out.new }
{
    little::put_u16(out, at, 7);
    put_pairs(out, at + 2);
}

// Puts a `fmt `.
pub fn put_format(out: &mut [u8], at: usize, format: Format)
    requires format_value { format_rule format ≡ true }
    requires format_in_bounds { at + length (format_bytes format) ≤ length out.old }
    ensures buffer { Put out.old at (format_bytes format) out.new }
{
    put_shared(out, at, format);
    match format.tag {
        PCM => {}
        IMA => put_extension(out, at + 16, 2, format),
        _ => {
            put_extension(out, at + 16, 32, format);
            put_coefficients(out, at + 20);
        }
    }
}

// Puts a `fact`.
#[tactic(auto, unfolding(crate::specs::Bytes::fact_bytes))]
pub fn put_fact(out: &mut [u8], at: usize, frames: Frames)
    requires { at + 4 ≤ length out.old }
    ensures buffer { Put out.old at (fact_bytes frames) out.new }
{
    little::put_u32(out, at, frames.0);
}
