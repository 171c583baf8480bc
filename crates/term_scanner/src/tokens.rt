// Numbers and names of an answer text, read in place.
ghost use Rattle.std.specs.Prelude.{◌≡◌, true, false, ◌+◌, ◌-◌, ◌<◌, ◌≤◌, length};
ghost use Rattle.sheet_format.specs.Bytes.{is_digit};
ghost use Rattle.scanning.specs.Ranges.{number_from, number_zero, scan_number};
ghost use Rattle.scanning.specs.Scanning.{name_end};

use line_parser::names::is_name_byte;
use memory::byte;
use sheet_format::limits;

// The byte is a digit, 0 to 9.
pub fn is_digit(b: u8) -> bool
    ensures { result ≡ is_digit b }
{
    b.is_ascii_digit()
}

// A number, with the value v before position i.
fn number_from(text: &[u8], i: usize, v: u32) -> Option<(u32, usize)>
    requires { v ≤ 65535 }
    ensures { result ≡ number_from (length text.now - i) text.now i v }
{
    let mut value = v;
    for at in i..text.len() {
        let b = text[at];
        if !is_digit(b) {
            return Some((value, at));
        }
        let next = 10 * value + u32::from(b - b'0');
        if limits::MAX_NUMBER < next {
            return None;
        }
        value = next;
    }
    Some((value, i.max(text.len())))
}

// After a first digit 0 there is no digit.
fn number_zero(text: &[u8], i: usize) -> Option<(u32, usize)>
    ensures { result ≡ number_zero text.now i }
{
    if is_digit(byte(text, i)) {
        return None;
    }
    Some((0, i))
}

// The number at position i.
pub fn scan_number(text: &[u8], i: usize) -> Option<(u32, usize)>
    ensures { result ≡ scan_number text.now i }
{
    let b = byte(text, i);
    if is_digit(b) {
        if b == b'0' {
            return number_zero(text, i + 1);
        }
        return number_from(text, i + 1, u32::from(b - b'0'));
    }
    None
}

// Where the name at position i ends.
pub fn name_end(text: &[u8], i: usize) -> usize
    ensures { result ≡ name_end text.now i }
{
    for at in i..text.len() {
        if !is_name_byte(text[at]) {
            return at;
        }
    }
    i.max(text.len())
}
