// Lines of text into a lent buffer: bytes, numbers in base ten, the line that tells a refusal.
#![tactic(auto)]

ghost use Rattle.std.specs.Prelude.{◌+◌, ◌≤◌, ◌<◌, ◌≡◌, [], ◌∷◌, length, take};
ghost use Rattle.sheet_format.specs.Bytes.{digits, decimal};
ghost use Rattle.line_writer.specs.Appending.{Appends};
ghost use Rattle.line_writer.specs.RefusalLine.{refusal_line, refusal_line_bytes};

use memory::widen;

// One byte after the first `at`.
pub fn put_byte(out: &mut [u8], at: usize, b: u8) -> usize
    requires { at < length out.old }
    ensures { Appends out.old at (b ∷ []) out.new result }
{
    out[at] = b;
    at + 1
}

pub fn put_bytes(out: &mut [u8], at: usize, bytes: &[u8]) -> usize
    requires { at + length bytes.now ≤ length out.old }
    ensures { Appends out.old at bytes.now out.new result }
{
    let to = at + bytes.len();
    out[at..to].copy_from_slice(bytes);
    to
}

fn digit(n: u32) -> u8
    requires { n < 10 }
    ensures { result ≡ 48 + n }
{
    b'0' + n as u8
}

// A number in base ten, of at most f digits. It calls itself in place of a loop, as `digits` does: the digit that is found first is written
// last. It is not one with `write_digits` of term_printer: that one stops at a limit and counts on, and this one owes that all fits.
fn put_digits(f: usize, out: &mut [u8], at: usize, n: u32) -> usize
    requires { at + length (digits f n []) ≤ length out.old }
    ensures { Appends out.old at (digits f n []) out.new result }
{
    if f == 0 {
        return at;
    }
    if n < 10 {
        return put_byte(out, at, digit(n));
    }
    let to = put_digits(f - 1, out, at, n / 10);
    put_byte(out, to, digit(n % 10))
}

pub fn put_number(out: &mut [u8], at: usize, n: u32) -> usize
    requires { at + length (decimal n) ≤ length out.old }
    ensures { Appends out.old at (decimal n) out.new result }
{
    put_digits(widen(n) + 1, out, at, n)
}

// The line that tells a refusal, at the front. By hand and not by `write!`, because a lent buffer is no `fmt::Write`.
#[tactic(auto, using(crate::proofs::Laws::decimal_length))]
pub fn put_refusal(out: &mut [u8], number: u32, line: u32) -> usize
    requires { refusal_line_bytes ≤ length out.old }
    ensures { (result ≤ refusal_line_bytes) × (take result out.new ≡ refusal_line number line) }
{
    let mut to = put_bytes(out, 0, b"X\t");
    to = put_number(out, to, number);
    to = put_byte(out, to, b'\t');
    to = put_number(out, to, line);
    put_byte(out, to, b'\n')
}
