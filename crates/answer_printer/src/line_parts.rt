// The parts of the lines of an answer. Each function is a definition of the crate printing, and its contract says so; a
// function that leaves the work buffer alone says so for any memory.
ghost use Rattle.std.specs.Prelude.{◌≡◌, List, ℕ, ◌≤◌};
ghost use Rattle.printing.specs.Numbering.{printer};
ghost use Rattle.sheet_format.specs.Bytes.{lf};
ghost use Rattle.printing.specs.WriteTerms.{emit_to, term_to};
ghost use Rattle.printing.specs.WriteLines.{bytes_to, number_to, result_to};

use printing::Cursor;
use term_printer::cursor::emit_to;
use term_printer::numbering::with_position;
use term_printer::output::{write_bytes, write_number};
use term_printer::{Bounds, Source, term_to};

pub fn bytes_to(limit: u32, out: &mut [u8], p: Cursor, bs: &[u8]) -> Cursor
    ensures { (m : List ℕ) → printer m out.new result ≡ bytes_to limit (printer m out.old p) bs.now }
{
    let to = write_bytes(bs, out, limit, p.at);
    with_position(p, to)
}

pub fn number_to(limit: u32, out: &mut [u8], p: Cursor, n: u32) -> Cursor
    ensures { (m : List ℕ) → printer m out.new result ≡ number_to limit (printer m out.old p) n }
{
    let to = write_number(out, limit, p.at, n);
    with_position(p, to)
}

// Outcome and units: bs are the bytes before the units.
pub fn result_to(limit: u32, out: &mut [u8], p: Cursor, bs: &[u8], units: u32) -> Cursor
    ensures { (m : List ℕ) → printer m out.new result ≡ result_to limit (printer m out.old p) bs.now units }
{
    let mut q = bytes_to(limit, out, p, bs);
    q = number_to(limit, out, q, units);
    emit_to(limit, out, q, b'\n')
}

// The term of word a, which ends its line.
pub fn last_term(
    source: &Source<'_>,
    bounds: Bounds,
    w: &mut [u32],
    out: &mut [u8],
    p: Cursor,
    a: u32,
) -> Cursor
    requires { bounds.limit ≤ 65535 }
    ensures { printer w.new out.new result ≡ emit_to bounds.limit
        (term_to source.now.sheet.now source.now.table.now bounds.turns bounds.limit
        (printer w.old out.old p) a) lf }
{
    let q = term_to(source, bounds, w, out, p, a);
    emit_to(bounds.limit, out, q, b'\n')
}
