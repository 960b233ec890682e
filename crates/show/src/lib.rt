// What the programs print of bytes and samples on standard output: all of them, or a number mixed of them. A failed
// write is the answer of each.
#![tactic(auto)]

ghost use Rattle.std.specs.Prelude.{◌≡◌, ◌<◌};
ghost use Rattle.show.specs.Mixing.{mixed_with, mixed_from};

use std::io;

// A byte as a wider number.
fn wide(byte: u8) -> u64
    ensures answer { result ≡ byte }
{
    byte as u64
}

// Bytes in hexadecimal, each as two digits after a blank.
pub fn bytes(rt: &impl Print, values: &[u8]) -> io::Result<()> {
    for byte in values {
        print!(rt; " {byte:02x}")?;
    }
    Ok(())
}

// One number more, mixed into those before it, where they are too many to print. 1,000,003 is a
// prime.
pub fn mixed(before: u64, value: u64) -> u64
    requires { before < 1000003 }
    ensures answer { result ≡ mixed_with before value }
    ensures bound { result < 1000003 }
{
    (before * 31 + value % 65536) % 1000003
}

// A number mixed of bytes.
pub fn mixed_bytes(values: &[u8]) -> u64
    ensures answer { result ≡ mixed_from 0 values.now }
{
    let mut mix: u64 = 0;
    for byte in values {
        mix = mixed(mix, wide(*byte));
    }
    mix
}

// How many bytes there are, and a number mixed of them, to the end of the line.
pub fn mixed_line(rt: &impl Print, values: &[u8]) -> io::Result<()> {
    println!(rt; "bytes {} mixed {}", values.len(), mixed_bytes(values))
}

// Samples in decimal digits, each after a blank.
pub fn sound(rt: &impl Print, values: &[i16]) -> io::Result<()> {
    for value in values {
        print!(rt; " {value}")?;
    }
    Ok(())
}
