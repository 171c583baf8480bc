// Ranges of bytes that are the same but for the case of letters, request W-201.
ghost use Rattle.std.specs.Prelude.{◌≡◌, ◌-◌, ◌≤◌, length};
ghost use Rattle.scanning.specs.Ranges.{same_folded};

use super::ranges::same_by;
use sheet_format::letters::same_letter;

// Whether the n bytes of a from i on and of b from j on are the same but for case, where none lies past the end. It goes from the last to the first, for names of one length mostly differ in their last letter.
fn folded_inside(n: usize, a: &[u8], i: usize, b: &[u8], j: usize) -> bool
    requires { (n ≤ length a.now - i) × (n ≤ length b.now - j) }
    ensures { result ≡ same_folded n a.now i b.now j }
{
    for k in (0..n).rev() {
        if !same_letter(a[i + k], b[j + k]) {
            return false;
        }
    }
    true
}

// Whether the n bytes of a from i on and of b from j on are the same but for case. Mostly bytes are equal, so callers ask `same_range` first.
pub fn same_folded(n: usize, a: &[u8], i: usize, b: &[u8], j: usize) -> bool
    ensures { result ≡ same_folded n a.now i b.now j }
{
    if a.len().saturating_sub(i) < n || b.len().saturating_sub(j) < n {
        return same_by(n, a, i, b, j, |c, d| same_letter(c, d));
    }
    folded_inside(n, a, i, b, j)
}
