// wave_check FILE: prints `accepted`, or `refused` and the number of the refusal.
//
// FILE may have 262,144 bytes at most; a longer one is `refused 1`. It is held on the stack.
#![tactic(auto)]

use std::io;
use units::BytePlace;

// The verdict on a file.
fn check(rt: &impl Print, file: &[u8]) -> io::Result<()> {
    let mut texts = files::texts_room();
    match wave::read(file, &mut texts) {
        Ok(_) => println!(rt; "accepted"),
        Err(refusal) => listing::refused(rt, refusal),
    }
}

fn main(rt: HostRuntime) -> io::Result<()> {
    if !files::called(&rt, 2, "wave_check FILE")? {
        return Ok(());
    }
    let mut buffer = files::file_room();
    let Some(n) = files::read(&rt, "wave_check", 1, &mut buffer)? else {
        return Ok(());
    };
    if files::too_long(&rt, n)? {
        return Ok(());
    }
    check(&rt, little::bytes_from(&buffer, BytePlace(0), BytePlace(n)))
}
