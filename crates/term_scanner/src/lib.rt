// Terms of an answer text, read in place.
#![tactic(auto)]

pub mod blocks;
pub mod delimiters;
pub mod folded_ranges;
pub mod ranges;
pub mod symbol_names;
pub mod tokens;

ghost use Rattle.std.specs.Prelude.{◌≡◌, ◌≢◌, true, false, cond, ℕ, ◌+◌, ◌<◌, ◌≤◌, List, [], eqb, ltb, length};
ghost use Rattle.node_table.specs.Layout.{is_function_bit};
ghost use Rattle.scanning.specs.Scanning.{scan_level, scan_at, scan_symbol, scan_numeral, higher, scan_term};
ghost use Rattle.term_scanner.specs.Delimiters.{Fits};
ghost use Rattle.term_scanner.specs.Heads.{leaf_of, open_at, head_at};
ghost use Rattle.term_scanner.specs.Steps.{Advances, Reaches, found, outcome};

use delimiters::{BRACKET, DelimiterStack, next_word, push_arguments, room};
use line_parser::names::is_name_byte;
use memory::{byte, widen};
use node_table::{arity, is_function};
use symbol_names::symbol_named;
use tokens::{is_digit, name_end, scan_number};

// With so many words all delimiters of a text of 65,535 bytes have room.
const MOST_WORDS: usize = 1023;

// What a term begins with: a symbol or a number without arguments, where it ends, and its level; or a symbol with arguments, where the
// first one begins, and how many there are.
#[derive(Clone, Copy)]
pub enum Head {
    Leaf(usize, u32),
    Open(usize, u32),
}

// What is due in a scan: a term is to begin, or has ended; the whole term has ended; there is no term; or there is no room for the
// delimiters of a term that is to begin.
#[derive(Clone, Copy)]
pub enum Stage {
    Begin,
    After,
    Ended,
    Malformed,
    Full,
}

// A scan between two steps: the position, the highest level so far, how many brackets are open, what is due, the delimiters to come.
#[derive(Clone, Copy)]
pub struct TermScan {
    pub at: usize,
    pub level: u32,
    pub depth: usize,
    pub stage: Stage,
    pub stack: DelimiterStack,
}

// Whether symbol k, of so many symbols, is a function symbol.
fn is_applied(t: &[u32], symbols: u32, k: u32) -> bool
    ensures { result ≡ cond (ltb k symbols) (eqb (is_function_bit t.now k) 1) false }
{
    if k < symbols {
        return is_function(t, k);
    }
    false
}

// The level of a made constant or leftover variable.
fn scan_level(text: &[u8], i: usize) -> Option<(usize, u32)>
    ensures { result ≡ scan_level text.now i }
{
    let (k, e) = scan_number(text, i)?;
    Some((e, k))
}

// `@`, then the level.
fn scan_at(text: &[u8], i: usize) -> Option<(usize, u32)>
    ensures { result ≡ scan_at text.now i }
{
    if byte(text, i) == b'@' {
        return scan_level(text, i + 1);
    }
    None
}

// The number, `@`, the level.
pub fn scan_symbol(text: &[u8], i: usize) -> Option<(usize, u32)>
    ensures { result ≡ scan_symbol text.now i }
{
    let (_, e) = scan_number(text, i)?;
    scan_at(text, e)
}

// A number as a term: no other byte of a name follows it.
fn scan_numeral(text: &[u8], i: usize) -> Option<(usize, u32)>
    ensures { result ≡ scan_numeral text.now i }
{
    let (_, e) = scan_number(text, i)?;
    if is_name_byte(byte(text, e)) {
        return None;
    }
    Some((e, 0))
}

// Whether a made constant or a leftover variable begins with b.
fn is_sigil(b: u8) -> bool
    ensures { result ≡ cond (eqb b 33) true (eqb b 95) }
{
    b == b'!' || b == b'_'
}

// What has no arguments, as a head.
fn leaf_of(s: Option<(usize, u32)>) -> Option<Head>
    ensures { result ≡ leaf_of s }
{
    let (e, k) = s?;
    Some(Head::Leaf(e, k))
}

// After a name that ends at i, of a symbol with n arguments.
fn scan_open(text: &[u8], i: usize, n: u32) -> Option<Head>
    ensures { result ≡ open_at n text.now i }
{
    if n == 0 {
        return Some(Head::Leaf(i, 0));
    }
    if byte(text, i) == b'(' {
        return Some(Head::Open(i + 1, n));
    }
    None
}

// What begins at position i. No name begins with a digit.
fn scan_head(sheet: &[u8], t: &[u32], symbols: u32, text: &[u8], i: usize) -> Option<Head>
    ensures { result ≡ head_at sheet.now t.now symbols text.now i }
{
    let b = byte(text, i);
    if is_sigil(b) {
        return leaf_of(scan_symbol(text, i + 1));
    }
    if is_digit(b) {
        return leaf_of(scan_numeral(text, i));
    }
    let at = name_end(text, i);
    let k = symbol_named(symbols, sheet, t, text, i, at);
    if is_applied(t, symbols, k) {
        return scan_open(text, at, arity(t, k));
    }
    None
}

// A term is to begin: without arguments it ends at once, otherwise its first argument is to begin.
fn begin_term(
    lent: &mut [u64],
    rank: usize,
    sheet: &[u8],
    t: &[u32],
    symbols: u32,
    text: &[u8],
    s: TermScan,
) -> TermScan
    requires { Fits lent.old s.stack × (length lent.old ≤ 1023) × (s.stage ≡ Stage.Begin) }
    ensures { Advances rank sheet.now t.now symbols text.now lent.old s
        lent.new result }
{
    if rank <= s.depth {
        return TermScan {
            stage: Stage::Malformed,
            ..s
        };
    }
    match scan_head(sheet, t, symbols, text, s.at) {
        Some(Head::Leaf(e, k)) => {
            return TermScan {
                at: e,
                level: s.level.max(k),
                stage: Stage::After,
                ..s
            };
        }
        Some(Head::Open(e, n)) => {
            let stack = s.stack;
            if room(lent, stack) < widen(n) {
                return TermScan {
                    stage: Stage::Full,
                    ..s
                };
            }
            return TermScan {
                at: e,
                level: s.level,
                depth: s.depth + 1,
                stage: Stage::Begin,
                stack: push_arguments(lent, stack, n),
            };
        }
        None => {
            return TermScan {
                stage: Stage::Malformed,
                ..s
            };
        }
    }
}

// A term has ended: the nearest delimiter must follow, or the whole term has ended. Where the next word of delimiters is due, this is
// all that the step does: most steps then touch no memory.
fn take_delimiter(lent: &[u64], text: &[u8], s: TermScan) -> TermScan
    requires { Fits lent.now s.stack × (s.stage ≡ Stage.After) }
    ensures { (rank : ℕ) (b t : List ℕ) (symbols : ℕ) → Advances rank b t symbols text.now lent.now s
        lent.now result }
{
    let stack = s.stack;
    if stack.count == 0 {
        if stack.words == 0 {
            return TermScan {
                stage: Stage::Ended,
                ..s
            };
        }
        return TermScan {
            stack: next_word(lent, stack),
            ..s
        };
    }
    let rest = DelimiterStack {
        top: stack.top / 2,
        count: stack.count - 1,
        words: stack.words,
    };
    let b = byte(text, s.at);
    if stack.top % 2 == BRACKET {
        if b == b')' {
            return TermScan {
                at: s.at + 1,
                level: s.level,
                depth: s.depth.saturating_sub(1),
                stage: Stage::After,
                stack: rest,
            };
        }
        return TermScan {
            stage: Stage::Malformed,
            ..s
        };
    }
    if b == b',' {
        return TermScan {
            at: s.at + 1,
            level: s.level,
            depth: s.depth,
            stage: Stage::Begin,
            stack: rest,
        };
    }
    TermScan {
        stage: Stage::Malformed,
        ..s
    }
}

// All steps from s on, with room for 64 delimiters in each lent word, and 64 more.
fn scan_within(
    lent: &mut [u64],
    rank: usize,
    sheet: &[u8],
    t: &[u32],
    symbols: u32,
    text: &[u8],
    from: TermScan,
) -> TermScan
    requires { Fits lent.old from.stack × (length lent.old ≤ 1023) × (from.stage ≡ Stage.Begin) }
    ensures { Reaches rank sheet.now t.now symbols text.now lent.old from
        lent.new result × (result.stage ≢ Stage.Begin) × (result.stage ≢ Stage.After) }
{
    let mut s = from;
    // A loop: how many steps there are is known only by what falls at each, the bytes, stages and delimiters that are left.
    loop {
        s = match s.stage {
            Stage::Begin => begin_term(lent, rank, sheet, t, symbols, text, s),
            Stage::After => take_delimiter(lent, text, s),
            _ => return s,
        };
    }
}

// What a scan has found.
fn found(s: TermScan) -> Option<(usize, u32)>
    ensures { result ≡ found s }
{
    match s.stage {
        Stage::Ended => Some((s.at, s.level)),
        _ => None,
    }
}

// The rest of a scan that has stopped for want of room, with room for every delimiter of a text.
fn scan_deep(
    rank: usize,
    sheet: &[u8],
    t: &[u32],
    symbols: u32,
    text: &[u8],
    s: TermScan,
) -> Option<(usize, u32)>
    requires { (length text.now ≤ 65535) × Fits [] s.stack × (s.stage ≡ Stage.Full) }
    ensures { result ≡ outcome rank sheet.now t.now symbols text.now [] s }
{
    let mut lent = [0u64; MOST_WORDS];
    let from = TermScan {
        stage: Stage::Begin,
        ..s
    };
    found(scan_within(&mut lent, rank, sheet, t, symbols, text, from))
}

// A term at position i, nested less deep than the rank says: where it ends, and the highest level in it. The delimiters of most
// terms need no memory but the top of the stack.
pub fn scan_term(
    rank: usize,
    sheet: &[u8],
    t: &[u32],
    symbols: u32,
    text: &[u8],
    i: usize,
) -> Option<(usize, u32)>
    requires { length text.now ≤ 65535 }
    ensures { result ≡ scan_term rank sheet.now t.now symbols text.now i }
{
    let from = TermScan {
        at: i,
        level: 0,
        depth: 0,
        stage: Stage::Begin,
        stack: DelimiterStack {
            top: 0,
            count: 0,
            words: 0,
        },
    };
    let mut lent = [0u64; 0];
    let s = scan_within(&mut lent, rank, sheet, t, symbols, text, from);
    match s.stage {
        Stage::Full => scan_deep(rank, sheet, t, symbols, text, s),
        _ => found(s),
    }
}
