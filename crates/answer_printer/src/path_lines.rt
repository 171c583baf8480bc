// The lines of an answer for the path of the search, in the order of the search. Each function is a definition of the crate
// printing, and its contract says so.
ghost use Rattle.std.specs.Prelude.{◌≡◌, List, ℕ, ◌%◌, ◌<◌, ◌≤◌};
ghost use Rattle.printing.specs.Numbering.{printer};
ghost use Rattle.printing.specs.WriteLines.{bytes_to, plain_bytes, line_to, lines_to};

use super::clause_lines::clause_to;
use super::line_parts::{bytes_to, last_term};
use machine::{fields, lines};
use machine_memory::cells::record_of;
use machine_memory::words::{constant_word, variable_word};
use memory::field;
use printing::Cursor;
use term_printer::{Bounds, Source};

// The five lines that have no term. The kind is a number since it stands in lent memory.
pub fn plain_to(limit: u32, out: &mut [u8], p: Cursor, k: u32) -> Cursor
    ensures { (m : List ℕ) → printer m out.new result ≡ bytes_to limit (printer m out.old p) (plain_bytes k) }
{
    match k {
        lines::TRUE => bytes_to(limit, out, p, b"D\ttrue\n"),
        lines::AND => bytes_to(limit, out, p, b"D\tand\n"),
        lines::LEFT => bytes_to(limit, out, p, b"D\tleft\n"),
        lines::RIGHT => bytes_to(limit, out, p, b"D\tright\n"),
        _ => bytes_to(limit, out, p, b"D\tassume\n"),
    }
}

// A line of the path: its record, and its kind.
#[derive(Clone, Copy)]
pub struct PathLine {
    pub record: u32,
    pub kind: u32,
}

// The line.
pub fn line_to(
    source: &Source<'_>,
    bounds: Bounds,
    w: &mut [u32],
    out: &mut [u8],
    p: Cursor,
    line: PathLine,
) -> Cursor
    requires { bounds.limit ≤ 65535 }
    ensures { printer w.new out.new result ≡ line_to source.now.sheet.now source.now.table.now bounds.turns
        bounds.limit (printer w.old out.old p) line.record line.kind }
{
    let limit = bounds.limit;
    let u = line.record;
    match line.kind {
        lines::TRUE | lines::AND | lines::LEFT | lines::RIGHT | lines::ASSUME => plain_to(
            limit, out, p, line.kind,
        ),
        lines::SOME => {
            let a = variable_word(field(w, u, fields::VARIABLES));
            let q = bytes_to(limit, out, p, b"D\tsome\t");
            last_term(source, bounds, w, out, q, a)
        }
        lines::ALL => {
            let q = bytes_to(limit, out, p, b"D\tall\t");
            last_term(source, bounds, w, out, q, constant_word(u))
        }
        _ => clause_to(source, bounds, w, out, p, u),
    }
}

// The lines from link e on, at most so many as bindings are looked through.
pub fn lines_to(
    source: &Source<'_>,
    bounds: Bounds,
    w: &mut [u32],
    out: &mut [u8],
    p: Cursor,
    e: u32,
) -> Cursor
    requires { bounds.limit ≤ 65535 }
    ensures { printer w.new out.new result ≡ lines_to source.now.sheet.now source.now.table.now bounds.turns
        bounds.limit bounds.turns (printer w.old out.old p) e }
{
    let mut link = e;
    let mut q = p;
    for _turn in 0..bounds.turns {
        let pointer = link / printing::LINE_CODES;
        if pointer == 0 {
            return q;
        }
        let u = record_of(pointer);
        let next = field(w, u, printing::fields::NEXT_LINE);
        let line = PathLine {
            record: u,
            kind: link % printing::LINE_CODES,
        };
        q = line_to(source, bounds, w, out, q, line);
        link = next;
    }
    q
}
