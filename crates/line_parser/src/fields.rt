// Fields of a line: where a field ends, and a field as a number.
ghost use Rattle.std.specs.Prelude.{◌≡◌, length};
ghost use Rattle.sheet_format.specs.Limits.{max_number};
ghost use Rattle.sheet_format.specs.Bytes.{digits_from, at_most, number};
ghost use Rattle.line_parser.specs.Fields.{field_len, first_number, number_answer};

use sheet_format::limits;

// The position of the first tab, or the length where there is none.
pub fn field_len(s: &[u8]) -> usize
    ensures { result ≡ field_len s.now }
{
    s.iter().position(|&b| b == b'\t').unwrap_or(s.len())
}

// The digits f as a number up to 65,535. The reading ends at the first byte that takes the value above that.
fn read_digits(f: &[u8]) -> Option<(u32, usize)>
    ensures { result ≡ number_answer (length f.now) (at_most max_number (digits_from 0 f.now)) }
{
    let mut v: u32 = 0;
    for &b in f {
        if !b.is_ascii_digit() {
            return None;
        }
        v = 10 * v + u32::from(b - b'0');
        if limits::MAX_NUMBER < v {
            return None;
        }
    }
    Some((v, f.len()))
}

// The field f as a number: no zero stands first but for 0 itself. Tests and no slice patterns: where two arms join, the proof does not
// know the length that they tested.
fn field_number(f: &[u8]) -> Option<(u32, usize)>
    ensures { result ≡ number_answer (length f.now) (number f.now) }
{
    if f.is_empty() {
        return None;
    }
    if f[0] == b'0' {
        if f.len() == 1 {
            return Some((0, 1));
        }
        return None;
    }
    read_digits(f)
}

// The first field of s as a number: its value and the field's length, or no number.
pub fn read_number(s: &[u8]) -> Option<(u32, usize)>
    ensures { result ≡ first_number s.now }
{
    let n = field_len(s);
    field_number(&s[..n])
}
