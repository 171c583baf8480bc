// The B lines of an answer. Each function is a definition of the crate printing, and its contract says so.
ghost use Rattle.std.specs.Prelude.{◌≡◌, cond, ◌%◌, ◌≤◌, eqb};
ghost use Rattle.sheet_format.specs.Bytes.{ascii};
ghost use Rattle.machine.specs.Words.{variable_word};
ghost use Rattle.printing.specs.Numbering.{printer};
ghost use Rattle.printing.specs.WriteLines.{bytes_to, number_to, term_line, bindings_to};

use super::line_parts::{bytes_to, last_term, number_to};
use machine_memory::words::variable_word;
use printing::Cursor;
use sheet_format::limits;
use term_printer::{Bounds, Source};

// Names of variables, from the first on: a bit for each says whether it stands free, the lowest for the first.
#[derive(Clone, Copy)]
pub struct Names {
    pub first: u32,
    pub bits: u32,
}

// The line of the first name, if it stands free.
fn binding_to(
    source: &Source<'_>,
    bounds: Bounds,
    names: Names,
    w: &mut [u32],
    out: &mut [u8],
    p: Cursor,
) -> Cursor
    requires { bounds.limit ≤ 65535 }
    ensures { printer w.new out.new result ≡ cond (eqb (names.bits % 2) 1)
        (term_line source.now.sheet.now source.now.table.now bounds.turns bounds.limit
        (number_to bounds.limit (bytes_to bounds.limit (printer w.old out.old p) (ascii "B\t")) names.first)
        (ascii "\t") (variable_word names.first)) (printer w.old out.old p) }
{
    let bit = names.bits % 2;
    if bit != 1 {
        return p;
    }
    let limit = bounds.limit;
    let v = names.first;
    let mut q = bytes_to(limit, out, p, b"B\t");
    q = number_to(limit, out, q, v);
    q = bytes_to(limit, out, q, b"\t");
    last_term(source, bounds, w, out, q, variable_word(v))
}

// The free variables of the eight, ascending, by their bits.
pub fn bindings_to(
    source: &Source<'_>,
    bounds: Bounds,
    bits: u32,
    w: &mut [u32],
    out: &mut [u8],
    p: Cursor,
) -> Cursor
    requires { bounds.limit ≤ 65535 }
    ensures { printer w.new out.new result ≡ bindings_to source.now.sheet.now source.now.table.now bounds.turns
        bounds.limit 8 bits 0 (printer w.old out.old p) }
{
    let mut rest = bits;
    let mut q = p;
    for name in 0..limits::VARIABLE_NAMES {
        let names = Names {
            first: name,
            bits: rest,
        };
        q = binding_to(source, bounds, names, w, out, q);
        rest = rest / 2;
    }
    q
}
