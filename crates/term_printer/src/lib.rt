// The printer of terms: names from the lent sheet, arguments in brackets. Each function is a definition of the crate printing,
// and its contract says so.
#![tactic(auto)]

mod bindings;
pub mod cursor;
pub mod numbering;
pub mod output;
pub mod path_links;
mod symbols;

ghost use Rattle.std.specs.Prelude.{◌≡◌, ◌-◌, ◌≤◌};
ghost use Rattle.printing.specs.Numbering.{printer};
ghost use Rattle.printing.specs.WriteTerms.{separator, write_term, term_to};

use bindings::deref;
use cursor::{State, separator};
use machine::tags;
use machine_memory::words::{frame_of, increment, name_of, node_of, tag_of, word_of};
use node_table::{child, child_count, label};
use printing::Cursor;

// How many bindings are looked through at a time, and the last position that is written.
#[derive(Clone, Copy)]
pub struct Bounds {
    pub turns: u32,
    pub limit: u32,
}

// What a text is written from: the bytes of the sheet, and its table.
#[derive(Clone, Copy)]
pub struct Source<'a> {
    pub sheet: &'a [u8],
    pub table: &'a [u32],
}

// The term of word a: its name, and its arguments in brackets by calls of itself. It ends since the remaining answer bytes plus the
// rank fall. The limit of the arguments is lower by the bracket that closes them, so that no more brackets are opened than could be
// closed; the rank, which is one above the limit, tells it again after them. The source is lent by reference, so that no
// level copies its slices.
pub fn write_term(
    rank: u32,
    source: &Source<'_>,
    w: &mut [u32],
    out: &mut [u8],
    s: &mut State,
    a: u32,
)
    requires { (s.old.bounds.limit ≤ 65535) × (s.old.bounds.limit ≡ rank - 1) }
    ensures { (printer w.new out.new s.new.cursor ≡ write_term rank source.now.sheet.now
        source.now.table.now s.old.bounds.turns s.old.bounds.limit
        (printer w.old out.old s.old.cursor) a)
        × (s.new.bounds ≡ s.old.bounds) }
{
    if rank == 0 {
        return;
    }
    if s.bounds.limit < s.cursor.at {
        return;
    }
    let b = deref(s.bounds.turns, w, a);
    let tag = tag_of(b);
    if tag == tags::VARIABLE {
        s.write_variable(w, out, name_of(b));
        return;
    }
    if tag == tags::CONSTANT {
        s.write_constant(w, out, name_of(b));
        return;
    }
    let t = source.table;
    let n = node_of(b);
    s.write_functor(source, out, label(t, n));
    let c = child_count(t, n);
    if c == 0 {
        return;
    }
    let f = frame_of(b);
    let limit = rank - 1;
    s.bounds.limit = limit.saturating_sub(1);
    for j in 0..c {
        s.emit(out, separator(j));
        let x = word_of(t, w, child(t, n, j), f);
        write_term(limit, source, w, out, s, x);
    }
    s.bounds.limit = limit;
    s.emit(out, b')');
}

// The same, at a rank that suffices.
pub fn term_to(
    source: &Source<'_>,
    bounds: Bounds,
    w: &mut [u32],
    out: &mut [u8],
    p: Cursor,
    a: u32,
) -> Cursor
    requires { bounds.limit ≤ 65535 }
    ensures { printer w.new out.new result ≡ term_to source.now.sheet.now source.now.table.now bounds.turns
        bounds.limit (printer w.old out.old p) a }
{
    let mut s = State { cursor: p, bounds };
    write_term(increment(bounds.limit), source, w, out, &mut s, a);
    s.cursor
}
