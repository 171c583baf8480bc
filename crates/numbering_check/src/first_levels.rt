// The level of a numbered constant or variable where the answer text shows it first.
ghost use Rattle.std.specs.Prelude.{◌≡◌, ◌+◌, ◌-◌, ◌≤◌, length};
ghost use Rattle.scanning.specs.Numbering.{outside_name, is_symbol, number_at, level_at, is_showing, level_from, first_level};

use line_parser::names::is_name_byte;
use memory::byte;
use scanning::NO_NUMBER;
use term_scanner::ranges::find_byte;
use term_scanner::tokens::scan_number;

// Whether no name goes on at position i.
fn outside_name(text: &[u8], i: usize) -> bool
    ensures { result ≡ outside_name text.now i }
{
    if i == 0 {
        return false;
    }
    if is_name_byte(byte(text, i - 1)) {
        return false;
    }
    true
}

// Whether a made constant or a leftover variable begins at position i.
pub fn is_symbol(text: &[u8], i: usize) -> bool
    ensures { result ≡ is_symbol text.now i }
{
    let b = byte(text, i);
    if b == b'!' {
        return true;
    }
    if b == b'_' {
        return outside_name(text, i);
    }
    false
}

// The number at position i; 65,536 where there is none.
fn number_at(text: &[u8], i: usize) -> u32
    ensures { (result ≡ number_at text.now i) × (result ≤ 65536) }
{
    match scan_number(text, i) {
        Some((n, _)) => n,
        None => NO_NUMBER,
    }
}

// The number after position i. Past the end there is none, whatever the position.
pub fn number_after(text: &[u8], i: usize) -> u32
    ensures { (result ≡ number_at text.now (i + 1)) × (result ≤ 65536) }
{
    if i < text.len() {
        return number_at(text, i + 1);
    }
    NO_NUMBER
}

// The level of the symbol at position i: after its number and `@`.
pub fn level_at(text: &[u8], i: usize) -> u32
    ensures { result ≡ level_at text.now i }
{
    if i < text.len() {
        return match scan_number(text, i + 1) {
            Some((_, e)) => number_after(text, e),
            None => NO_NUMBER,
        };
    }
    NO_NUMBER
}

// Whether a symbol with first byte c and number n begins at position i.
fn is_showing(text: &[u8], c: u8, n: u32, i: usize) -> bool
    ensures { result ≡ is_showing text.now c n i }
{
    if byte(text, i) == c {
        if is_symbol(text, i) {
            let m = number_after(text, i);
            return m == n;
        }
        return false;
    }
    false
}

// The level at the first showing, from position i on, of the symbol with first byte c and number n; 65,536 where it does not show.
// The text is searched for the byte first: numbers are read only where it stands.
fn level_from(text: &[u8], c: u8, n: u32, i: usize) -> u32
    ensures { result ≡ level_from (length text.now - i) text.now c n i }
{
    let mut at = find_byte(text, c, i);
    // A while: each turn goes on where the byte stands next, which is not the next position.
    while at < text.len() {
        if is_showing(text, c, n, at) {
            return level_at(text, at);
        }
        at = find_byte(text, c, at + 1);
    }
    NO_NUMBER
}

// The same in the whole text.
pub fn first_level(text: &[u8], c: u8, n: u32) -> u32
    ensures { result ≡ first_level text.now c n }
{
    level_from(text, c, n, 0)
}
