// The levels of numbers at their first showings, kept in lent numbers (specs/LevelCache.antt).
ghost use Rattle.std.specs.Prelude.{◌≡◌, length};
ghost use Rattle.numbering_check.specs.LevelCache.{made_entry, leftover_entry, cache_level};

use memory::{put_item, widen};

// The first level that is not kept.
const NOT_CACHED: u32 = 65535;

// Where the level of made constant n is kept, l leftover variables having shown.
pub fn made_entry(levels: &[u16], n: u32, l: u32) -> usize
    ensures { result ≡ made_entry (length levels.now) n l }
{
    let size = levels.len();
    if widen(n) + widen(l) < size {
        return widen(n);
    }
    size
}

// Where the level of leftover variable n is kept, m made constants having shown. It has its own function, since it counts from the back:
// one for both would take a flag for the end that it counts from.
pub fn leftover_entry(levels: &[u16], n: u32, m: u32) -> usize
    ensures { result ≡ leftover_entry (length levels.now) n m }
{
    let size = levels.len();
    if widen(n) + widen(m) < size {
        return size - (widen(n) + 1);
    }
    size
}

// The level is kept in entry a, if there is such an entry and the level fits in. An entry is a lent number: 0, or the level and one.
pub fn cache_level(levels: &mut [u16], a: usize, level: u32)
    ensures { levels.new ≡ cache_level levels.old a level }
{
    if level < NOT_CACHED {
        put_item(levels, a, (level + 1) as u16);
    }
}
