// Lists the WAVE file on standard input, which may have 65,536 bytes at most; a longer one is
// `refused 1`. Where a read fails, the input ends.
#![tactic(auto)]

use std::io;
use units::Refusal;

fn main(rt: HostRuntime) -> io::Result<()> {
    let mut buffer = [0u8; 65537];
    let (n, _) = files::fill(&mut rt.stdin(), &mut buffer);
    if 65536 < n {
        return listing::refused(&rt, Refusal::LengthOutOfRange);
    }
    listing::list(&rt, &buffer[..n])
}
