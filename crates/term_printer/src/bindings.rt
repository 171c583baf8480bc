// Following the bindings of a word to their end. The function is a definition of the crate printing, and its contract says so.
ghost use Rattle.std.specs.Prelude.{◌≡◌};
ghost use Rattle.printing.specs.Bindings.{deref};

use machine::tags;
use machine_memory::cells::cell_of;
use machine_memory::words::{name_of, tag_of};

// Follows at most n bindings. A word of tag 0 binds nothing.
pub fn deref(n: u32, w: &[u32], a: u32) -> u32
    ensures { result ≡ deref n w.now a }
{
    let mut at = a;
    for _turn in 0..n {
        if tag_of(at) != tags::VARIABLE {
            return at;
        }
        let b = cell_of(w, name_of(at));
        if tag_of(b) == 0 {
            return at;
        }
        at = b;
    }
    at
}
