// The numbers at each place of bytes, and what a buffer holds after a piece is put into it.
ghost use Rattle.std.specs.Prelude.{◌+◌, ◌≤◌, length};

use crate::lent::bytes_line;
use std::io;
use units::BytePlace;

// A place and the numbers there.
fn numbers_line(rt: &impl Print, word: &str, at: usize, small: u16, large: u32) -> io::Result<()> {
    println!(rt; "{word} {at} u16 {small} u32 {large}")
}

// The numbers at a place with room for both.
fn inside(rt: &impl Print, bytes: &[u8], at: usize) -> io::Result<()> {
    if bytes.len() < 4 {
        return Ok(());
    }
    if bytes.len() - 4 < at {
        return Ok(());
    }
    let small = little::u16_at(bytes, at);
    numbers_line(rt, "inside", at, small, little::u32_at(bytes, at))
}

// The numbers at any place.
fn anywhere(rt: &impl Print, bytes: &[u8], at: usize) -> io::Result<()> {
    let small = little::u16_or_zero(bytes, at);
    numbers_line(rt, "anywhere", at, small, little::u32_or_zero(bytes, at))
}

// The numbers at each place of 24 bytes, and at some past the end.
fn each_place(rt: &impl Print, bytes: &[u8]) -> io::Result<()> {
    for at in 0..26 {
        inside(rt, bytes, at)?;
        anywhere(rt, bytes, at)?;
    }
    anywhere(rt, bytes, 18446744073709551615)
}

// An entry is 24 bytes.
pub fn entry(rt: &impl Print, table: &[u8]) -> io::Result<usize> {
    each_place(rt, little::bytes_from(table, BytePlace(0), BytePlace(24)))?;
    Ok(24)
}

// Puts a piece at a place: as a number if it has two or four bytes.
fn put(out: &mut [u8], at: usize, piece: &[u8])
    requires { at + length piece.now ≤ length out.old }
{
    if piece.len() == 2 {
        little::put_u16(out, at, little::u16_at(piece, 0));
        return;
    }
    if piece.len() == 4 {
        little::put_u32(out, at, little::u32_at(piece, 0));
        return;
    }
    little::put_bytes(out, at, piece);
}

// The same where there is room for it, and the buffer.
fn buffer_line(rt: &impl Print, out: &mut [u8], at: usize, piece: &[u8]) -> io::Result<()> {
    if out.len() < at {
        return Ok(());
    }
    if out.len() - at < piece.len() {
        return Ok(());
    }
    put(out, at, piece);
    bytes_line(rt, "buffer", out)
}

// The same in a buffer that holds at most 160 bytes.
fn put_in(rt: &impl Print, before: &[u8], n: u16, at: usize, piece: &[u8]) -> io::Result<()> {
    if 160 < before.len() {
        return Ok(());
    }
    let mut out = [0u8; 160];
    little::put_bytes(&mut out, 0, before);
    let size = (n as usize).min(out.len());
    buffer_line(rt, &mut out[..size], at, piece)
}

// An entry is three numbers of two bytes, what a buffer holds before, at most 160 bytes, and the piece. The numbers
// are the length of the buffer, that of the piece, and the place.
pub fn put_entry(rt: &impl Print, table: &[u8]) -> io::Result<usize> {
    let room = little::u16_or_zero(table, 0);
    let n = room as usize;
    let size = little::u16_or_zero(table, 2) as usize;
    let at = little::u16_or_zero(table, 4) as usize;
    let before = little::bytes_from(table, BytePlace(6), BytePlace(n));
    put_in(
        rt,
        before,
        room,
        at,
        little::bytes_from(table, BytePlace(6 + n), BytePlace(size)),
    )?;
    Ok(6 + n + size)
}
