// Numbering by first showing, checked in the answer text. The levels of first showings are kept in lent numbers, so that a text is gone
// through once.
#![tactic(auto)]

mod first_levels;
mod level_cache;

ghost use Rattle.std.specs.Prelude.{◌≡◌, cond, Some, None, ◌+◌, ◌-◌, ◌≤◌, length, get_or};
ghost use Rattle.scanning.specs.Numbering.{
  is_symbol,
  number_at,
  first_level,
  in_order,
  count_after,
  check_symbol,
  check_numbering,
};
ghost use Rattle.numbering_check.specs.LevelCache.{Cached, CacheValid, ValidAfter, cache_showing};
ghost use Rattle.numbering_check.specs.Sigils.{find_sigil};

use first_levels::{first_level, is_symbol, level_at, number_after};
use level_cache::{cache_level, leftover_entry, made_entry};
use memory::{byte, item_or};
use term_scanner::blocks::skip_blocks;

// The level at the first showing of the symbol with first byte c and number n, whose entry is a.
fn known_level(text: &[u8], levels: &[u16], a: usize, c: u8, n: u32) -> u32
    requires { Cached (get_or levels.now a 0) (first_level text.now c n) }
    ensures { result ≡ first_level text.now c n }
{
    let entry = u32::from(item_or(levels, a, 0));
    if 0 < entry {
        return entry - 1;
    }
    first_level(text, c, n)
}

// Whether the symbol at position i, with number n and entry a, is in order, k of its kind having shown.
fn in_order(text: &[u8], levels: &[u16], a: usize, n: u32, i: usize, k: u32) -> bool
    requires { (n ≡ number_at text.now (i + 1)) × Cached (get_or levels.now a 0) (first_level text.now (get_or text.now i 0) n) }
    ensures { result ≡ in_order text.now i k }
{
    if n == k {
        return true;
    }
    if n < k {
        let first = known_level(text, levels, a, byte(text, i), n);
        let here = level_at(text, i);
        return first == here;
    }
    false
}

// How many of its kind have shown after it. The level of a new number is kept.
fn count_after(text: &[u8], levels: &mut [u16], a: usize, n: u32, i: usize, k: u32) -> u32
    requires { (n ≡ number_at text.now (i + 1)) × (n ≤ 65536) }
    ensures { (result ≡ count_after text.now i k)
        × (levels.new ≡ cache_showing text.now levels.old a i k) }
{
    if n == k {
        cache_level(levels, a, level_at(text, i));
        return k + 1;
    }
    k
}

// The symbol at position i, with number n and entry a, k of its kind having shown: how many have shown after it, if it is in order.
fn counted(text: &[u8], levels: &mut [u16], a: usize, n: u32, i: usize, k: u32) -> Option<u32>
    requires { (n ≡ number_at text.now (i + 1)) × (n ≤ 65536)
        × Cached (get_or levels.old a 0) (first_level text.now (get_or text.now i 0) n) }
    ensures { (result ≡ cond (in_order text.now i k) (Some (count_after text.now i k)) None)
        × (levels.new ≡ cond (in_order text.now i k) (cache_showing text.now levels.old a i k) levels.old) }
{
    if in_order(text, levels, a, n, i, k) {
        return Some(count_after(text, levels, a, n, i, k));
    }
    None
}

// Whatever is at position i.
fn check_symbol(text: &[u8], levels: &mut [u16], i: usize, m: u32, l: u32) -> Option<(u32, u32)>
    requires { CacheValid text.now levels.old i m l }
    ensures { (result ≡ check_symbol text.now i m l) × ValidAfter text.now levels.new (i + 1) result }
{
    if !is_symbol(text, i) {
        return Some((m, l));
    }
    let n = number_after(text, i);
    if byte(text, i) == b'!' {
        let a = made_entry(levels, n, l);
        let made = counted(text, levels, a, n, i, m)?;
        return Some((made, l));
    }
    let a = leftover_entry(levels, n, m);
    let leftover = counted(text, levels, a, n, i, l)?;
    Some((m, leftover))
}

// The first position from i on, before e, where a symbol may begin; e if there is none.
fn find_sigil(text: &[u8], i: usize, e: usize) -> usize
    requires { e ≤ length text.now }
    ensures { result ≡ find_sigil (e - i) text.now i }
{
    let from = skip_blocks(text, b'!', b'_', i, e);
    for at in from..e {
        let b = text[at];
        if b == b'!' {
            return at;
        }
        if b == b'_' {
            return at;
        }
    }
    from.max(e)
}

// The positions from i to e.
pub fn check_numbering(
    text: &[u8],
    levels: &mut [u16],
    i: usize,
    e: usize,
    m: u32,
    l: u32,
) -> Option<(u32, u32)>
    requires { (e ≤ length text.now) × CacheValid text.now levels.old i m l }
    ensures { (result ≡ check_numbering (e - i) text.now i m l)
        × ValidAfter text.now levels.new e result }
{
    let mut at = find_sigil(text, i, e);
    let mut made = m;
    let mut leftover = l;
    // A while: each turn goes on where the next symbol may begin, which is not the next position.
    while at < e {
        let (p, q) = check_symbol(text, levels, at, made, leftover)?;
        made = p;
        leftover = q;
        at = find_sigil(text, at + 1, e);
    }
    Some((made, leftover))
}
