// Declaring symbols: F and P lines.
ghost use Rattle.std.specs.Prelude.{◌≡◌, ◌+◌, ◌*◌, ◌<◌, ◌≤◌, eqb, length};
ghost use Rattle.sheet_format.specs.Bytes.{folded};
ghost use Rattle.table_builder.specs.Nodes.{made};
ghost use Rattle.table_builder.specs.Symbols.{symbol_written, same_at, name_is, find_name, symbol_word, StandsAt, insert_declaration};

use super::node_info::Counts;
use memory::{byte, put, widen};
use node_table::fingerprints::word_at;
use node_table::{layout, name_start, name_word};
use outcomes::refusals::Reason;
use sheet_format::letters::same_letter;
use sheet_format::limits;

fn put_symbol(t: &mut [u32], i: u32, start: u32, name: u32, word: u32)
    ensures { t.new ≡ symbol_written t.old i start name word }
{
    let at = layout::SYMBOL_NUMBERS * widen(i);
    put(t, at + layout::NAME_START, start);
    put(t, at + layout::NAME_WORD, name);
    put(t, at + layout::ARITY, word);
}

// Whether two bytes are equal but for the case of letters. A name is mostly spelled as declared, so equal bytes are tried before folded ones.
fn same_byte(b: u8, c: u8) -> bool
    ensures { result ≡ eqb (folded b) (folded c) }
{
    b == c || same_letter(b, c)
}

// Whether the name stands on the sheet at `at`, whatever the case of its letters.
fn same_at(sheet: &[u8], at: usize, name: &[u8]) -> bool
    requires { at < 4294967296 }
    ensures { result ≡ same_at sheet.now at name.now }
{
    for i in 0..name.len() {
        let b = byte(sheet, at + i);
        if !same_byte(b, name[i]) {
            return false;
        }
    }
    true
}

// Whether symbol i has the name, whose word is given.
fn name_is(sheet: &[u8], t: &[u32], i: u32, word: u32, name: &[u8]) -> bool
    ensures { result ≡ name_is sheet.now t.now i word name.now }
{
    name_word(t, i) == word && same_at(sheet, widen(name_start(t, i)), name)
}

// Whether one of the first `count` symbols has the name, whose word is given.
pub fn find_name(sheet: &[u8], t: &[u32], count: u32, word: u32, name: &[u8]) -> bool
    ensures { result ≡ find_name sheet.now t.now count word name.now }
{
    for i in 0..count {
        if name_is(sheet, t, i, word, name) {
            return true;
        }
    }
    false
}

// The arity, and whether it is a function symbol.
fn symbol_word(function: bool, arity: u32) -> u32
    requires { arity ≤ 4 }
    ensures { result ≡ symbol_word function arity }
{
    2 * arity + u32::from(function)
}

// F or P: the name is the part of the sheet that the name reader returned; it stands at `start`.
pub fn insert_declaration(
    sheet: &[u8],
    t: &mut [u32],
    k: Counts,
    function: bool,
    start: usize,
    name: &[u8],
    arity: u32,
) -> Result<Counts, Reason>
    requires { StandsAt sheet.now start name.now × (length sheet.now ≤ 65535) × (arity ≤ 4) }
    ensures { made t.new result
        ≡ insert_declaration sheet.now t.old k function start (length name.now) arity }
{
    if limits::MAX_SYMBOLS <= k.symbols {
        return Err(Reason::TooMany);
    }
    let i = k.symbols;
    let word = word_at(sheet, start, start + name.len());
    if find_name(sheet, t, i, word, name) {
        return Err(Reason::Unknown);
    }
    put_symbol(t, i, start as u32, word, symbol_word(function, arity));
    Ok(Counts {
        symbols: i + 1,
        ..k
    })
}
