// Whether a range of the text spells an instance of a sheet term: a node of the table with a frame, whose names are positions in the
// text.
ghost use Rattle.std.specs.Prelude.{◌≡◌, true, false, ◌+◌, ◌-◌, ◌<◌, ◌≤◌, length};
ghost use Rattle.scanning.specs.Instances.{same_slots, match_range, match_name, match_number, match_functor, match_slot, argument_count};
ghost use Rattle.scanning.specs.Instances.{argument_of, match_instance, is_instance};
ghost use Rattle.instances.specs.OpenNodes.{opens_of, match_head, mark_before, match_children, Matches};

use super::Instance;
use super::frames::{slot_end, slot_start};
use memory::{byte, get, put, widen};
use node_table::{child, child_count, kind, kinds, label, name_start};
use sheet_format::limits;
use term_scanner::folded_ranges::same_folded;
use term_scanner::ranges::same_range;
use term_scanner::symbol_names::name_size;
use term_scanner::tokens::scan_number;

// The most nodes that are open at a time, and a number above every number of children (specs/Instances.antt).
const NODES: usize = limits::MAX_NODES as usize;

pub const CHILD_LIMIT: u32 = 8;

// In most terms no more nodes are open at a time.
const FEW_NODES: usize = 8;

// A range of the text.
#[derive(Clone, Copy)]
pub struct Range {
    pub start: usize,
    pub end: usize,
}

impl Range {
    // How many bytes it has.
    pub fn size(self) -> usize
        ensures { result ≡ self.end - self.start }
    {
        self.end.saturating_sub(self.start)
    }
}

// Whether the terms in two ranges of the text are the same. Their bytes mostly are, so these are compared first.
pub fn same_slots(text: &[u8], a: Range, b: Range) -> bool
    ensures { result ≡ same_slots text.now a.start a.end b.start b.end }
{
    if a.start == b.start {
        return true;
    }
    let n = a.size();
    if n == b.size() {
        if same_range(n, text, a.start, text, b.start) {
            return true;
        }
        return same_folded(n, text, a.start, text, b.start);
    }
    false
}

// Whether the n bytes of a from s on stand at position i, and where they end.
fn match_range(n: usize, a: &[u8], s: usize, text: &[u8], i: usize) -> Option<usize>
    ensures { result ≡ match_range n a.now s text.now i }
{
    let left = text.len().saturating_sub(i);
    if n <= left {
        if same_range(n, a, s, text, i) {
            return Some(i + n);
        }
        if same_folded(n, a, s, text, i) {
            return Some(i + n);
        }
        return None;
    }
    None
}

// Whether the name of symbol k does.
fn match_name(sheet: &[u8], t: &[u32], k: u32, text: &[u8], i: usize) -> Option<usize>
    ensures { result ≡ match_name sheet.now t.now k text.now i }
{
    let n = name_size(sheet, t, k);
    match_range(n, sheet, widen(name_start(t, k)), text, i)
}

// Whether the number n does: it is the number at position i.
fn match_number(n: u32, text: &[u8], i: usize) -> Option<usize>
    ensures { result ≡ match_number n text.now i }
{
    let (m, e) = scan_number(text, i)?;
    if m == n {
        return Some(e);
    }
    None
}

// Whether what the label l stands for does, a symbol or a number.
fn match_functor(sheet: &[u8], t: &[u32], l: u32, text: &[u8], i: usize) -> Option<usize>
    ensures { result ≡ match_functor sheet.now t.now l text.now i }
{
    if l < limits::MAX_SYMBOLS {
        return match_name(sheet, t, l, text, i);
    }
    match_number(l - limits::MAX_SYMBOLS, text, i)
}

// Whether the term of name v in frame g does.
fn match_slot(text: &[u8], w: &[u32], g: u32, v: u32, i: usize) -> Option<usize>
    ensures { result ≡ match_slot text.now w.now g v i }
{
    let s = widen(slot_start(w, g, v));
    let e = widen(slot_end(w, g, v));
    match_range(e.saturating_sub(s), text, s, text, i)
}

// How many children node m has, and the j-th of them.
pub fn argument_count(t: &[u32], m: u32) -> u32
    ensures { (result ≡ argument_count t.now m) × (result < 8) }
{
    child_count(t, m) % CHILD_LIMIT
}

fn argument_of(t: &[u32], m: u32, j: u32) -> u32
    ensures { (result ≡ argument_of t.now m j) × (result < 1024) }
{
    child(t, m, j) % limits::MAX_NODES
}

// Whether node m has children, which are to be matched after its symbol.
fn opens(t: &[u32], m: u32) -> bool
    ensures { result ≡ opens_of t.now m }
{
    kind(t, m) != kinds::VARIABLE && argument_count(t, m) != 0
}

// Whether the instance's symbol or number, or a name's term, stands at position i, and where it ends.
fn match_head(
    sheet: &[u8],
    t: &[u32],
    text: &[u8],
    w: &[u32],
    instance: Instance,
    i: usize,
) -> Option<usize>
    ensures { result ≡ match_head sheet.now t.now text.now w.now instance.frame
        instance.node i }
{
    let m = instance.node;
    let l = label(t, m);
    if kind(t, m) == kinds::VARIABLE {
        return match_slot(text, w, instance.frame, l, i);
    }
    match_functor(sheet, t, l, text, i)
}

// The byte before the j-th of n children, or after the last one.
fn mark_before(j: u32, n: u32) -> u8
    ensures { (result ≡ mark_before j n) × (0 < result) }
{
    if j < n {
        if j == 0 {
            return b'(';
        }
        return b',';
    }
    b')'
}

// Why a match with a stack that is lent has no end: the text differs, or more nodes are open than the stack has room for.
#[derive(Clone, Copy)]
pub enum Stop {
    Differs,
    StackFull,
}

// Whether the children of the instance's node stand at position i, in brackets, and where they end. For each node that is open, whose
// children are being matched, the stack has 8 * node + the next child.
fn match_open(
    stack: &mut [u32],
    sheet: &[u8],
    t: &[u32],
    text: &[u8],
    w: &[u32],
    instance: Instance,
    i: usize,
) -> Result<usize, Stop>
    requires { (instance.node < 1024) × (0 < length stack.old) × (length stack.old ≤ 1024) }
    ensures { Matches (length stack.old) result (match_children 1023 sheet.now t.now
        text.now w.now instance.frame instance.node i) }
{
    put(stack, 0, CHILD_LIMIT * instance.node);
    let mut n: usize = 1;
    let mut at = i;
    // A while: nodes are opened and closed, as on a call stack.
    while 0 < n {
        let level = get(stack, n - 1);
        let m = level / CHILD_LIMIT;
        let j = level % CHILD_LIMIT;
        let count = argument_count(t, m);
        if byte(text, at) != mark_before(j, count) {
            return Err(Stop::Differs);
        }
        at += 1;
        if j < count {
            if n == stack.len() {
                return Err(Stop::StackFull);
            }
            let part = Instance {
                node: argument_of(t, m, j),
                ..instance
            };
            let Some(e) = match_head(sheet, t, text, w, part, at) else {
                return Err(Stop::Differs);
            };
            put(stack, n - 1, level + 1);
            put(stack, n, CHILD_LIMIT * part.node);
            at = e;
            if opens(t, part.node) {
                n += 1;
            }
        } else {
            n -= 1;
        }
    }
    Ok(at)
}

// The same with room for as many open nodes as the table has.
fn match_deep(
    sheet: &[u8],
    t: &[u32],
    text: &[u8],
    w: &[u32],
    instance: Instance,
    i: usize,
) -> Option<usize>
    requires { instance.node < 1024 }
    ensures { result ≡ match_children 1023 sheet.now t.now text.now w.now
        instance.frame instance.node i }
{
    let mut stack = [0u32; NODES];
    match_open(&mut stack, sheet, t, text, w, instance, i).ok()
}

// The same. Few terms on a sheet are nested deep, and only for these a long stack is cleared.
fn match_children(
    sheet: &[u8],
    t: &[u32],
    text: &[u8],
    w: &[u32],
    instance: Instance,
    i: usize,
) -> Option<usize>
    requires { instance.node < 1024 }
    ensures { result ≡ match_children 1023 sheet.now t.now text.now w.now
        instance.frame instance.node i }
{
    let mut stack = [0u32; FEW_NODES];
    match match_open(&mut stack, sheet, t, text, w, instance, i) {
        Ok(end) => Some(end),
        Err(Stop::Differs) => None,
        Err(Stop::StackFull) => match_deep(sheet, t, text, w, instance, i),
    }
}

// Whether the instance stands at position i, and where it ends.
fn match_instance(
    sheet: &[u8],
    t: &[u32],
    text: &[u8],
    w: &[u32],
    instance: Instance,
    i: usize,
) -> Option<usize>
    requires { instance.node < 1024 }
    ensures { result ≡ match_instance 1024 sheet.now t.now text.now w.now
        instance.frame instance.node i }
{
    let e = match_head(sheet, t, text, w, instance, i)?;
    if opens(t, instance.node) {
        return match_children(sheet, t, text, w, instance, e);
    }
    Some(e)
}

// Whether the term in the range of the text is the instance.
pub fn is_instance(
    sheet: &[u8],
    t: &[u32],
    text: &[u8],
    w: &[u32],
    range: Range,
    instance: Instance,
) -> bool
    requires { instance.node < 1024 }
    ensures { result ≡ is_instance sheet.now t.now text.now w.now range.start range.end
        instance.frame instance.node }
{
    let Some(i) = match_instance(sheet, t, text, w, instance, range.start) else {
        return false;
    };
    i == range.end
}
