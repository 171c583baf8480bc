// Ranges of bytes of an answer text: whether two hold the same, and where a line ends.
ghost use Rattle.std.specs.Prelude.{◌≡◌, ℕ, Bool, true, false, cond, eqb, map, ◌+◌, ◌-◌, ◌<◌, ◌≤◌, ltb, length};
ghost use Rattle.scanning.specs.Ranges.{same_range, find_byte, text_line_end};

use super::blocks::skip_blocks;
use memory::byte;

// The position after i. Past the end all positions read as 0, so there it may stay; no method of std adds one up to a length that way.
pub fn position_after(a: &[u8], i: usize) -> usize
    ensures { result ≡ cond (ltb i (length a.now)) (i + 1) i }
{
    if i < a.len() {
        return i + 1;
    }
    i
}

// Whether the n bytes of a from i on and of b from j on are the same by a comparison of bytes, where some may lie past the end. What the
// comparison tells of two bytes is whether they are equal after a function f, as it is or folded.
pub fn same_by<F: Fn(u8, u8) -> bool>(
    n: usize,
    a: &[u8],
    i: usize,
    b: &[u8],
    j: usize,
    same: F,
) -> bool
    requires { F.IsAlwaysCallable same }
    ensures { (f : ℕ → ℕ) → f 0 ≡ 0 → ((x y : ℕ) (z : Bool) → F.post same x y z → z ≡ eqb (f x) (f y))
        → result ≡ same_range n (map f a.now) i (map f b.now) j }
{
    let mut p = i;
    let mut q = j;
    for _byte in 0..n {
        if !same(byte(a, p), byte(b, q)) {
            return false;
        }
        p = position_after(a, p);
        q = position_after(b, q);
    }
    true
}

// Whether the n bytes of a from i on and of b from j on are the same, where none lies past the end. All bytes are compared, so that the
// compiler can compare many at once.
fn same_inside(n: usize, a: &[u8], i: usize, b: &[u8], j: usize) -> bool
    requires { (n ≤ length a.now - i) × (n ≤ length b.now - j) }
    ensures { result ≡ same_range n a.now i b.now j }
{
    let mut same = true;
    for k in 0..n {
        same = same & (a[i + k] == b[j + k]);
    }
    same
}

// Whether the n bytes of a from i on and of b from j on are the same.
pub fn same_range(n: usize, a: &[u8], i: usize, b: &[u8], j: usize) -> bool
    ensures { result ≡ same_range n a.now i b.now j }
{
    if a.len().saturating_sub(i) < n || b.len().saturating_sub(j) < n {
        return same_by(n, a, i, b, j, |c, d| c == d);
    }
    same_inside(n, a, i, b, j)
}

// The first position from i on that has the byte c; the end of the text, or i past it, if none has.
pub fn find_byte(text: &[u8], c: u8, i: usize) -> usize
    ensures { result ≡ find_byte (length text.now - i) text.now c i }
{
    let from = skip_blocks(text, c, c, i, text.len());
    for at in from..text.len() {
        if text[at] == c {
            return at;
        }
    }
    from.max(text.len())
}

// Where the line from i on ends: at its LF, or at the end of the text.
pub fn text_line_end(text: &[u8], i: usize) -> usize
    ensures { result ≡ text_line_end text.now i }
{
    find_byte(text, b'\n', i)
}
