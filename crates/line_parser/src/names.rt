// A field as a name: a letter, small or capital (request W-201), then letters, digits and underscores, at most 16 bytes in all.
ghost use Rattle.std.specs.Prelude.{◌≡◌, length};
ghost use Rattle.sheet_format.specs.Bytes.{is_letter, is_name_byte, name_bytes, is_name};
ghost use Rattle.line_parser.specs.Fields.{is_other_name_byte, first_name, name_answer};

use super::fields::field_len;
use sheet_format::limits;

// The byte is one of A to Z, 0 to 9 and `_`: what may stand in a name and is no small letter. Bytes before the digits, which part names,
// take one test.
fn is_other_name_byte(b: u8) -> bool
    ensures { result ≡ is_other_name_byte b }
{
    if b < b'0' {
        return false;
    }
    b.is_ascii_uppercase() || b.is_ascii_digit() || b == b'_'
}

// The byte is one of a to z, A to Z, 0 to 9 and `_`. The small letters are tested first, because most letters of names are small.
pub fn is_name_byte(b: u8) -> bool
    ensures { result ≡ is_name_byte b }
{
    b.is_ascii_lowercase() || is_other_name_byte(b)
}

// The byte is a letter, a to z or A to Z.
fn is_letter(b: u8) -> bool
    ensures { result ≡ is_letter b }
{
    b.is_ascii_alphabetic()
}

// Whether all bytes of f may stand in a name.
fn name_bytes(f: &[u8]) -> bool
    ensures { result ≡ name_bytes f.now }
{
    f.iter().all(|&b| is_name_byte(b))
}

// Whether the field f is a name: 1 to 16 of a to z, A to Z, 0 to 9 and `_`, a letter first.
fn is_name(f: &[u8]) -> bool
    ensures { result ≡ is_name f.now }
{
    let [first, rest @ ..] = f else {
        return false;
    };
    // Before any byte is looked at, since a field may be as long as the sheet.
    if limits::MAX_NAME < f.len() {
        return false;
    }
    is_letter(*first) && name_bytes(rest)
}

// The first field of s, as a part of s, if it is a name; otherwise the empty part.
pub fn read_name(s: &[u8]) -> &[u8]
    ensures { result.now ≡ first_name s.now }
{
    let field = &s[..field_len(s)];
    if is_name(field) { field } else { &s[..0] }
}

// What the part says that `read_name` returned: a name of so many bytes, or none.
pub fn name_of(part: &[u8]) -> Option<usize>
    ensures { result ≡ name_answer (length part.now) }
{
    if part.is_empty() {
        None
    } else {
        Some(part.len())
    }
}
