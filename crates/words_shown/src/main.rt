// Prints words and numbers at their ends. The file stdout beside src/ was written by hand, from what little-endian words,
// two's complement and the digits of a number are.
#![tactic(auto)]

ghost use Rattle.std.specs.Prelude.{◌≡◌, nat_abs};

use std::io;
use std::io::Write;

fn main(rt: HostRuntime) -> io::Result<()> {
    let mut out = rt.stdout();
    show_stored(&mut out)?;
    show_signs(&mut out)?;
    show_numbers(&mut out)?;
    show_full_line(&mut out)
}

// Three whole words and three bytes that are in none, read and then changed.
fn show_stored<W: Write>(out: &mut W) -> io::Result<()> {
    let mut bytes: [u8; 15] = [1, 2, 3, 4, 255, 255, 255, 255, 0, 0, 0, 128, 9, 9, 9];
    show(out, words::word_count(&bytes) as u64)?;
    show(out, words::word(&bytes, 0) as u64)?;
    show(out, words::word(&bytes, 1) as u64)?;
    show(out, words::word(&bytes, 2) as u64)?;
    // Past the last whole word, also where four times the place would wrap to 0.
    show(out, words::word(&bytes, 3) as u64)?;
    show(out, words::word(&bytes, 0x4000_0000_0000_0000) as u64)?;
    words::put_word(&mut bytes, 1, 0x1234_5678);
    words::put_word(&mut bytes, 3, 0x1234_5678);
    show(out, words::word(&bytes, 0) as u64)?;
    show_hex(out, words::word(&bytes, 1) as u64)?;
    show(out, words::word(&bytes, 2) as u64)?;
    show(out, bytes[4] as u64)?;
    show(out, bytes[12] as u64)
}

fn show_signs<W: Write>(out: &mut W) -> io::Result<()> {
    show_signed(out, words::signed_word(0))?;
    show_signed(out, words::signed_word(0x7FFF_FFFF))?;
    show_signed(out, words::signed_word(0x8000_0000))?;
    show_signed(out, words::signed_word(0xFFFF_FFFF))?;
    show(out, words::unsigned_word(-1) as u64)?;
    show(out, words::unsigned_word(-2147483648) as u64)?;
    show(out, words::unsigned_word(2147483647) as u64)?;
    show(out, words::clamped(0x7FFF_FFFF) as u64)?;
    show(out, words::clamped(0x8000_0000) as u64)
}

fn show_numbers<W: Write>(out: &mut W) -> io::Result<()> {
    show(out, 0)?;
    show(out, 9)?;
    show(out, 10)?;
    show(out, 1_101_659_110_911)?;
    show(out, 18_446_744_073_709_551_615)?;
    show_hex(out, 0)?;
    show_hex(out, 0x4014_0000_0000_0000)?;
    show_hex(out, 0xFEDC_BA98_7654_3210)
}

// A number that does not fit whole leaves the line and the place; one that just fits fills it.
fn show_full_line<W: Write>(out: &mut W) -> io::Result<()> {
    let mut line: [u8; 3] = [45, 45, 10];
    show(out, words::put_decimal(&mut line, 1, 123) as u64)?;
    out.write_all(&line)?;
    show(out, words::put_decimal(&mut line, 0, 12) as u64)?;
    out.write_all(&line)?;
    show(out, words::put_byte(&mut line, 3, 63) as u64)?;
    out.write_all(&line)
}

// A number in decimal, on a line of its own.
fn show<W: Write>(out: &mut W, v: u64) -> io::Result<()> {
    let mut line = [0u8; 21];
    let digits = words::put_decimal(&mut line, 0, v);
    let end = words::put_byte(&mut line, digits, b'\n');
    out.write_all(&line[..end])
}

// A number in hexadecimal.
fn show_hex<W: Write>(out: &mut W, v: u64) -> io::Result<()> {
    let mut line = [0u8; 17];
    let digits = words::put_hex(&mut line, 0, v);
    let end = words::put_byte(&mut line, digits, b'\n');
    out.write_all(&line[..end])
}

// A signed number.
fn show_signed<W: Write>(out: &mut W, v: i32) -> io::Result<()> {
    if v < 0 {
        out.write_all(b"-")?;
    }
    show(out, magnitude(v))
}

fn magnitude(v: i32) -> u64
    ensures { result ≡ nat_abs v }
{
    v.unsigned_abs() as u64
}
