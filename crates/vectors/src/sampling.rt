// Samples from bytes and back. An entry is a number of two bytes and so many bytes, at most 160.
//
// It prints them as 16-bit and as 8-bit sound and the sound's bytes again, numbers held to 16 bits, and for all 65,536
// samples and all 256 values of 8-bit sound numbers that are mixed of them in order.
use crate::lent::{bytes_line, sound_line};
use std::io;
use units::BytePlace;

// A sample as a number from 0 on.
fn raised(sample: i16) -> u64 {
    (sample as i32 + 32768) as u64
}

fn all_samples(rt: &impl Print) -> io::Result<()> {
    let mut signed: u64 = 0;
    let mut back: u64 = 0;
    for bits in 0u32..65536 {
        let sample = samples::from_bits(bits as u16);
        signed = show::mixed(signed, raised(sample));
        back = show::mixed(back, samples::to_bits(sample) as u64);
    }
    println!(rt; "all samples {signed} their bits {back}")
}

fn all_eights(rt: &impl Print) -> io::Result<()> {
    let mut number: u64 = 0;
    for value in 0u32..256 {
        number = show::mixed(number, raised(samples::from_eight(value as u8)));
    }
    println!(rt; "all values of 8 bits {number}")
}

fn sixteen(rt: &impl Print, bytes: &[u8], out: &mut [i16]) -> io::Result<()> {
    if out.len() < bytes.len() / 2 {
        return Ok(());
    }
    samples::from_pcm16(bytes, out);
    sound_line(rt, "sixteen", out)
}

fn eight(rt: &impl Print, bytes: &[u8], out: &mut [i16]) -> io::Result<()> {
    if out.len() < bytes.len() {
        return Ok(());
    }
    samples::from_pcm8(bytes, out);
    sound_line(rt, "eight", out)
}

fn bytes_of(rt: &impl Print, sound: &[i16], out: &mut [u8]) -> io::Result<()> {
    if out.len() / 2 < sound.len() {
        return Ok(());
    }
    samples::to_pcm16(sound, out);
    bytes_line(rt, "bytes", out)
}

fn one(rt: &impl Print, bytes: &[u8], at: usize, out: &mut [u8]) -> io::Result<()> {
    if bytes.len() < 2 {
        return Ok(());
    }
    if bytes.len() - 2 < at {
        return Ok(());
    }
    if out.len() < 5 {
        return Ok(());
    }
    let sample = samples::sample_at(bytes, at);
    samples::put_sample(out, 3, sample);
    print!(rt; "one {sample}")?;
    bytes_line(rt, "", out)
}

fn held(rt: &impl Print, value: i32) -> io::Result<()> {
    println!(rt; "held {value} {}", samples::held(value))
}

fn all_held(rt: &impl Print) -> io::Result<()> {
    held(rt, -2147483648)?;
    held(rt, -32769)?;
    held(rt, -32768)?;
    held(rt, -32767)?;
    held(rt, -1)?;
    held(rt, 0)?;
    held(rt, 1)?;
    held(rt, 32766)?;
    held(rt, 32767)?;
    held(rt, 32768)?;
    held(rt, 2147483647)
}

fn from_and_back(rt: &impl Print, bytes: &[u8]) -> io::Result<()> {
    let mut short = [7i16; 80];
    sixteen(rt, bytes, &mut short)?;
    let mut long = [7i16; 150];
    eight(rt, bytes, &mut long)?;
    let mut back = [170u8; 165];
    bytes_of(rt, &short, &mut back)?;
    let mut five = [170u8; 6];
    one(rt, bytes, 5, &mut five)
}

pub fn entry(rt: &impl Print, table: &[u8]) -> io::Result<usize> {
    let size = little::u16_or_zero(table, 0) as usize;
    from_and_back(rt, little::bytes_from(table, BytePlace(2), BytePlace(size)))?;
    all_held(rt)?;
    all_samples(rt)?;
    all_eights(rt)?;
    Ok(2 + size)
}
