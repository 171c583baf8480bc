// A D line of an answer, with the terms of its prefix. Each function is a definition of the crate printing, and its contract
// says so.
ghost use Rattle.std.specs.Prelude.{◌≡◌, ◌+◌, ◌<◌, ◌≤◌};
ghost use Rattle.printing.specs.Numbering.{printer};
ghost use Rattle.printing.specs.WriteLines.{prefix_to, clause_to};

use super::line_parts::{bytes_to, number_to};
use machine::fields;
use machine_memory::words::{TAGS, VARIABLE_TAG, truncate};
use memory::{field, widen};
use printing::Cursor;
use term_printer::cursor::emit_to;
use term_printer::{Bounds, Source, term_to};

// So many variables, from the first on.
#[derive(Clone, Copy)]
pub struct Variables {
    pub first: usize,
    pub count: u32,
}

// The terms of a prefix.
pub fn prefix_to(
    source: &Source<'_>,
    bounds: Bounds,
    w: &mut [u32],
    out: &mut [u8],
    p: Cursor,
    prefix: Variables,
) -> Cursor
    requires { (bounds.limit ≤ 65535) × (prefix.first + prefix.count < 8589934592) }
    ensures { printer w.new out.new result ≡ prefix_to source.now.sheet.now source.now.table.now bounds.turns
        bounds.limit prefix.count (printer w.old out.old p) prefix.first }
{
    let mut q = p;
    for x in prefix.first..prefix.first + widen(prefix.count) {
        let e = emit_to(bounds.limit, out, q, b'\t');
        q = term_to(source, bounds, w, out, e, truncate(TAGS * x + VARIABLE_TAG));
    }
    q
}

// The place of a member and the terms of its prefix, of record u.
pub fn clause_to(
    source: &Source<'_>,
    bounds: Bounds,
    w: &mut [u32],
    out: &mut [u8],
    p: Cursor,
    u: u32,
) -> Cursor
    requires { bounds.limit ≤ 65535 }
    ensures { printer w.new out.new result ≡ clause_to source.now.sheet.now source.now.table.now bounds.turns
        bounds.limit (printer w.old out.old p) u }
{
    let place = field(w, u, fields::USE_PLACE);
    let count = field(w, u, fields::USE_COUNT);
    let first = widen(field(w, u, fields::VARIABLES));
    let prefix = Variables { first, count };
    let limit = bounds.limit;
    let mut q = bytes_to(limit, out, p, b"D\tclause\t");
    q = number_to(limit, out, q, place);
    q = prefix_to(source, bounds, w, out, q, prefix);
    emit_to(limit, out, q, b'\n')
}
