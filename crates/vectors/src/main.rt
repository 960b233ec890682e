// Runs the library on vectors. Standard input is entries one after the other, in 524,288 bytes: a byte says the
// operation, and its module says what follows. Past the end of the input all is 0, as in `little`, so that any
// bytes are entries. Where a read fails, the input ends.
#![tactic(auto)]

mod adding;
mod copying;
mod decoding;
mod encoding;
mod entries;
mod lent;
mod numbers;
mod reading;
mod refusals;
mod sampling;
mod writing;

ghost use Rattle.std.specs.Prelude.{◌≡◌, length};

use entries::past;
use std::io;

// Room for the input. The `ensures` gives its length alone, so that no proof counts its bytes.
fn room() -> [u8; 524288]
    ensures long { 524288 ≡ length result }
{
    [0; 524288]
}

// Says that a byte is no operation, and skips all that follows.
fn no_operation(rt: &impl Print, operation: u8, table: &[u8]) -> io::Result<usize> {
    println!(rt; "no operation {operation}")?;
    Ok(table.len())
}

// Works on the first entry, and answers how many bytes it has.
fn entry(rt: &impl Print, operation: u8, table: &[u8]) -> io::Result<usize> {
    match operation {
        b'A' => adding::entry(rt, table),
        b'C' => copying::entry(rt, table),
        b'D' => decoding::entry(rt, table),
        b'E' => encoding::entry(rt, table),
        b'N' => numbers::entry(rt, table),
        b'P' => numbers::put_entry(rt, table),
        b'R' => reading::entry(rt, table),
        b'S' => sampling::entry(rt, table),
        b'U' => refusals::entry(rt, table),
        b'W' => writing::entry(rt, table),
        _ => no_operation(rt, operation, table),
    }
}

fn main(rt: HostRuntime) -> io::Result<()> {
    let mut buffer = room();
    let (n, _) = files::fill(&mut rt.stdin(), &mut buffer);
    let mut table = &buffer[..n];
    while 0 < table.len() {
        let body = past(table, 1);
        let size = entry(&rt, table[0], body)?;
        table = past(body, size);
    }
    Ok(())
}
