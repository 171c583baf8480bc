// The sheet's symbols by name, as an answer text spells them.
ghost use Rattle.std.specs.Prelude.{◌≡◌, false, ◌+◌, ◌-◌, ◌<◌};
ghost use Rattle.scanning.specs.Ranges.{same_folded};
ghost use Rattle.scanning.specs.Scanning.{name_size, is_named, symbol_named};

use super::folded_ranges::same_folded;
use super::ranges::same_range;
use memory::{byte, widen};
use node_table::fingerprints::word_at;
use node_table::{name_length, name_start, name_word};
use sheet_format::letters::same_letter;

// How many bytes the sheet has of the name of symbol k.
pub fn name_size(sheet: &[u8], t: &[u32], k: u32) -> usize
    ensures { (result ≡ name_size sheet.now t.now k) × (result < 4294967296) }
{
    widen(name_length(t, k)).min(sheet.len().saturating_sub(widen(name_start(t, k))))
}

// Whether the name of n bytes from s on stands in the text from i to e. Many names are one letter, so the last one is compared first; and
// mostly a name is spelled as declared.
fn is_spelled(n: usize, sheet: &[u8], s: usize, text: &[u8], i: usize, e: usize) -> bool
    requires { (e - i ≡ n) × (n < 4294967296) × (s < 4294967296) }
    ensures { result ≡ same_folded n text.now i sheet.now s }
{
    if n == 0 {
        return true;
    }
    if same_letter(byte(text, e - 1), byte(sheet, s + (n - 1))) {
        if n == 1 {
            return true;
        }
        if same_range(n, text, i, sheet, s) {
            return true;
        }
        return same_folded(n, text, i, sheet, s);
    }
    false
}

// Whether symbol k is named by the text from i to e, where a name has that word.
fn is_named(sheet: &[u8], t: &[u32], k: u32, word: u32, text: &[u8], i: usize, e: usize) -> bool
    ensures { result ≡ is_named sheet.now t.now k word text.now i e }
{
    if name_word(t, k) != word {
        return false;
    }
    let n = name_size(sheet, t, k);
    if e.saturating_sub(i) == n {
        return is_spelled(n, sheet, widen(name_start(t, k)), text, i, e);
    }
    false
}

// The first of so many symbols that has the name from i to e; their number if none has.
pub fn symbol_named(symbols: u32, sheet: &[u8], t: &[u32], text: &[u8], i: usize, e: usize) -> u32
    ensures { result ≡ symbol_named symbols sheet.now t.now text.now i e }
{
    let word = word_at(text, i, e);
    for k in 0..symbols {
        if is_named(sheet, t, k, word, text, i, e) {
            return k;
        }
    }
    symbols
}
