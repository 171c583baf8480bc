// The delimiters that are still to come in a term: a stack with a bit for each, in words that are lent.
ghost use Rattle.std.specs.Prelude.{◌≡◌, [], ◌∷◌, ◌+◌, ◌<◌, ◌≤◌, length};
ghost use Rattle.term_scanner.specs.Delimiters.{delimiters, Fits, capacity, pushed};

// The bits of a closing bracket and of a comma.
pub const BRACKET: u64 = 0;

pub const COMMA: u64 = 1;

pub const WORD_BITS: u32 = 64;

// The nearest delimiter is the lowest bit of `top`, which has `count` bits. When it has 64 it goes to the lent words, of which so
// many are in use: the words are lent from the stack, since nothing is on the heap.
#[derive(Clone, Copy)]
pub struct DelimiterStack {
    pub top: u64,
    pub count: u32,
    pub words: usize,
}

// One delimiter more.
fn push(lent: &mut [u64], s: DelimiterStack, bit: u64) -> DelimiterStack
    requires { Fits lent.old s × (bit < 2) × (length (delimiters lent.old s) < capacity lent.old) }
    ensures { Fits lent.new result × (delimiters lent.new result ≡ bit ∷ delimiters lent.old s) }
{
    if s.count < WORD_BITS {
        return DelimiterStack {
            top: 2 * s.top + bit,
            count: s.count + 1,
            words: s.words,
        };
    }
    let words = s.words;
    lent[words] = s.top;
    DelimiterStack {
        top: bit,
        count: 1,
        words: words + 1,
    }
}

// How many delimiters more there is room for.
pub fn room(lent: &[u64], s: DelimiterStack) -> usize
    requires { Fits lent.now s × (length lent.now ≤ 1023) }
    ensures { result + length (delimiters lent.now s) ≡ capacity lent.now }
{
    let free = lent.len() - s.words;
    64 * free + (WORD_BITS - s.count) as usize
}

// The delimiters of n arguments.
pub fn push_arguments(lent: &mut [u64], s: DelimiterStack, n: u32) -> DelimiterStack
    requires { Fits lent.old s × (n + length (delimiters lent.old s) ≤ capacity lent.old) }
    ensures { Fits lent.new result × (delimiters lent.new result ≡ pushed n 0 (delimiters lent.old s)) }
{
    let mut r = s;
    let mut bit = BRACKET;
    for _argument in 0..n {
        r = push(lent, r, bit);
        bit = COMMA;
    }
    r
}

// The same delimiters where none is on top: the next word comes there.
pub fn next_word(lent: &[u64], s: DelimiterStack) -> DelimiterStack
    requires { Fits lent.now s × (s.count ≡ 0) × (0 < s.words) }
    ensures { Fits lent.now result × (delimiters lent.now result ≡ delimiters lent.now s)
        × (0 < result.count) }
{
    let words = s.words - 1;
    DelimiterStack {
        top: lent[words],
        count: WORD_BITS,
        words,
    }
}
