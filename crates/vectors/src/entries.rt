// The parts of an entry. Most are a head, whose first two bytes are the length of the label; the label; and whatever
// else the head tells of.
ghost use Rattle.std.specs.Prelude.{◌≡◌, ◌-◌, ◌≤◌, length, IfOk};

use std::io;
use units::BytePlace;

// What follows the first n bytes.
pub fn past(bytes: &[u8], n: usize) -> &[u8]
    ensures long { length result.now ≡ length bytes.now - n }
{
    if bytes.len() <= n {
        return &bytes[..0];
    }
    &bytes[n..]
}

// Prints the label that follows a head, on a line of its own, and answers where it ends.
pub fn label(rt: &impl Print, table: &[u8], head: u16) -> io::Result<usize>
    ensures bound { IfOk result (λ at. at ≤ 131070) }
{
    let from = head as usize;
    let size = little::u16_or_zero(table, 0) as usize;
    rt.write_all(little::bytes_from(table, BytePlace(from), BytePlace(size)))?;
    println!(rt)?;
    Ok(from + size)
}
