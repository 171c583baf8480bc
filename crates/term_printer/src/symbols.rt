// A variable or a constant written with its number and level. Each function is a definition of the crate printing, and its
// contract says so.
ghost use Rattle.std.specs.Prelude.{◌≡◌};
ghost use Rattle.printing.specs.Numbering.{printer, write_variable, write_constant};

use super::numbering::{number_constant, number_variable, with_position};
use super::output::write_symbol;
use machine::{fields, tags};
use machine_memory::cells::{cell_of, level_of, record_of};
use memory::field;
use printing::Cursor;

// A symbol is shown: its number, and its final level.
pub fn write_variable(limit: u32, w: &mut [u32], out: &mut [u8], p: Cursor, x: u32) -> Cursor
    ensures { printer w.new out.new result ≡ write_variable limit (printer w.old out.old p) x }
{
    let m = number_variable(w, p, x);
    let number = record_of(cell_of(w, x) / tags::COUNT);
    let to = write_symbol(out, limit, m.at, b'_', number, level_of(w, x));
    with_position(m, to)
}

pub fn write_constant(
    turns: u32,
    limit: u32,
    w: &mut [u32],
    out: &mut [u8],
    p: Cursor,
    c: u32,
) -> Cursor
    ensures { printer w.new out.new result ≡ write_constant turns limit
        (printer w.old out.old p) c }
{
    let m = number_constant(turns, w, p, c);
    let number = record_of(field(w, c, printing::fields::CONSTANT_NUMBER));
    let to = write_symbol(
        out,
        limit,
        m.at,
        b'!',
        number,
        field(w, c, fields::CONSTANT_LEVEL),
    );
    with_position(m, to)
}
