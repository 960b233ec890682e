// How long a file and its sound are.
ghost use Rattle.std.specs.Prelude.{◌*◌, ◌≤◌, ◌<◌, ◌≡◌, ltb, IfOk, OnErr};

use std::io;
use units::{Frames, Refusal};

// The most bytes of a file that a program accepts.
const LIMIT: usize = 262144;

// Whether a file of so many bytes is too long; if so, it is refused.
pub fn too_long(rt: &impl Print, n: usize) -> io::Result<bool>
    ensures answer { IfOk result (λ long. long ≡ ltb 262144 n) }
    ensures err { OnErr result (262144 < n) }
{
    if LIMIT < n {
        listing::refused(rt, Refusal::LengthOutOfRange)?;
    }
    Ok(LIMIT < n)
}

// Says how many bytes a file has.
pub fn size(rt: &impl Print, file: &[u8]) -> io::Result<()> {
    println!(rt; "bytes {}", file.len())
}

// How many samples of a sound are so many frames.
pub fn samples_in(frames: Frames, channels: u16) -> usize
    ensures answer { result ≡ frames.0 * channels }
    ensures bound { result ≤ 281474976710656 }
{
    frames.0 as usize * channels as usize
}
