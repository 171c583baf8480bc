// Bytes into the lent answer buffer: a byte, bytes, numbers, the name of a made constant or a leftover variable.
// Each function is a definition of the crate printing, and its contract says so.
ghost use Rattle.std.specs.Prelude.{◌≡◌, ◌+◌, ◌<◌};
ghost use Rattle.printing.specs.Output.{written, emit, write_bytes, copy_bytes, write_digits, write_number, write_symbol};

use machine_memory::words::increment;
use memory::{put_item, widen};

// One byte, unless the position has passed the limit.
pub fn emit(out: &mut [u8], limit: u32, at: u32, b: u8) -> u32
    ensures { written out.new result ≡ emit out.old limit at b }
{
    if limit < at {
        return at;
    }
    put_item(out, widen(at), b);
    increment(at)
}

pub fn write_bytes(bs: &[u8], out: &mut [u8], limit: u32, at: u32) -> u32
    ensures { written out.new result ≡ write_bytes bs.now out.old limit at }
{
    let mut to = at;
    for &b in bs {
        to = emit(out, limit, to, b);
    }
    to
}

// Copies n bytes of the sheet from i on, or as many as there are.
pub fn copy_bytes(n: u32, sheet: &[u8], i: usize, out: &mut [u8], limit: u32, at: u32) -> u32
    ensures { written out.new result ≡ copy_bytes n sheet.now i out.old limit at }
{
    let rest = &sheet[i.min(sheet.len())..];
    let bs = &rest[..widen(n).min(rest.len())];
    write_bytes(bs, out, limit, at)
}

fn digit(n: u32) -> u8
    requires { n < 10 }
    ensures { result ≡ 48 + n }
{
    b'0' + n as u8
}

// A number in base ten, of at most f digits. It is not line_writer's `put_digits`, which requires room: past the limit it writes nothing.
pub fn write_digits(f: usize, out: &mut [u8], limit: u32, at: u32, n: u32) -> u32
    ensures { written out.new result ≡ write_digits f out.old limit at n }
{
    if f == 0 {
        return at;
    }
    if n < 10 {
        return emit(out, limit, at, digit(n));
    }
    let to = write_digits(f - 1, out, limit, at, n / 10);
    emit(out, limit, to, digit(n % 10))
}

pub fn write_number(out: &mut [u8], limit: u32, at: u32, n: u32) -> u32
    ensures { written out.new result ≡ write_number out.old limit at n }
{
    write_digits(widen(n) + 1, out, limit, at, n)
}

// A leftover variable or a made constant: c is the first byte.
pub fn write_symbol(out: &mut [u8], limit: u32, at: u32, c: u8, number: u32, level: u32) -> u32
    ensures { written out.new result ≡ write_symbol out.old limit at c number level }
{
    let mut to = emit(out, limit, at, c);
    to = write_number(out, limit, to, number);
    to = emit(out, limit, to, b'@');
    write_number(out, limit, to, level)
}
