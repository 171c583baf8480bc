// Total access to lent numbers and bytes, and to records of 64 numbers: past the end a read gives 0 and a write does nothing. So no
// caller has to prove an index, and every contract above is an equation on lists.
#![tactic(auto, unfolding(crate::specs::Records::field, crate::specs::Records::put_field))]

ghost use Rattle.std.specs.Prelude.{◌≡◌, ◌<◌, ◌≤◌, ◌++◌, length, get_or, set, drop, replicate};
ghost use Rattle.memory.specs.Records.{field, put_field};

// How many numbers a record has (specs/Records.antt).
pub const RECORD_NUMBERS: usize = 64;

// Item i, or `other` past the end.
pub fn item_or<T: Copy>(items: &[T], i: usize, other: T) -> T
    ensures { result ≡ get_or items.now i other }
{
    items.get(i).copied().unwrap_or(other)
}

// Item i becomes v; past the end nothing changes.
pub fn put_item<T: Copy>(items: &mut [T], i: usize, v: T)
    ensures { items.new ≡ set items.old i v }
{
    if i < items.len() {
        items[i] = v;
    }
}

pub fn get(w: &[u32], i: usize) -> u32
    ensures { result ≡ get_or w.now i 0 }
{
    item_or(w, i, 0)
}

pub fn put(w: &mut [u32], i: usize, v: u32)
    ensures { w.new ≡ set w.old i v }
{
    put_item(w, i, v);
}

pub fn byte(s: &[u8], i: usize) -> u8
    ensures { result ≡ get_or s.now i 0 }
{
    item_or(s, i, 0)
}

// A number of 32 bits as an index; by `as`, for no `From` goes to usize. The bound is for callers: a loop's variable has no range of its own.
pub fn widen(x: u32) -> usize
    ensures { (result ≡ x) × (result < 4294967296) }
{
    x as usize
}

// Field f of record u.
pub fn field(w: &[u32], u: u32, f: u32) -> u32
    ensures { result ≡ field w.now u f }
{
    get(w, RECORD_NUMBERS * widen(u) + widen(f))
}

pub fn put_field(w: &mut [u32], u: u32, f: u32, a: u32)
    ensures { w.new ≡ put_field w.old u f a }
{
    put(w, RECORD_NUMBERS * widen(u) + widen(f), a);
}

// The first n numbers become 0; the rest stay.
pub fn zero_front(a: &mut [u32], n: usize)
    requires { n ≤ length a.old }
    ensures { a.new ≡ replicate n 0 ++ drop n a.old }
{
    a[..n].fill(0);
}
