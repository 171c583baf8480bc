// Passing bytes of an answer text that are not looked for, a block at a time.
ghost use Rattle.std.specs.Prelude.{◌≡◌, ◌+◌, ◌≤◌, length};
ghost use Rattle.term_scanner.specs.Blocks.{has_either, Passes};

// How many bytes a block has.
const BLOCK: usize = 16;

// Whether a byte of the block from i on is c or d. All are compared, so that the compiler can compare them at once.
fn block_has(text: &[u8], c: u8, d: u8, i: usize) -> bool
    requires { i + 16 ≤ length text.now }
    ensures { result ≡ has_either 16 text.now c d i }
{
    let mut has = false;
    for k in 0..BLOCK {
        let b = text[i + k];
        has = has | ((b == c) | (b == d));
    }
    has
}

// A position from i on, not past e, before which neither c nor d stands: there a block begins that has one, or less than a block is left.
pub fn skip_blocks(text: &[u8], c: u8, d: u8, i: usize, e: usize) -> usize
    requires { e ≤ length text.now }
    ensures { Passes text.now c d i e result }
{
    let blocks = e.saturating_sub(i) / BLOCK;
    let mut at = i;
    for _block in 0..blocks {
        if block_has(text, c, d, at) {
            return at;
        }
        at += BLOCK;
    }
    at
}
