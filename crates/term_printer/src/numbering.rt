// The numbers of constants and variables at their first showing, kept in the lent work buffer.
// They are numbers, 0 for none, since they stand in lent memory. Each function is a definition of the crate printing, and its contract
// says so.
ghost use Rattle.std.specs.Prelude.{◌≡◌, ◌+◌, ◌<◌};
ghost use Rattle.printing.specs.Numbering.{with_position, with_variables, with_constants, numbered_memory, number_variable};
ghost use Rattle.printing.specs.Numbering.{clear_constants, constant_mark, clear_at_first, number_constant};

use machine_memory::cells::{cell_of, put_cell};
use machine_memory::words::{TAGS, increment, truncate};
use memory::{field, put_field, widen};
use printing::Cursor;

// Changes of the cursor.
pub fn with_position(p: Cursor, a: u32) -> Cursor
    ensures { result ≡ with_position p a }
{
    Cursor { at: a, ..p }
}

pub fn with_variables(p: Cursor, n: u32) -> Cursor
    ensures { result ≡ with_variables p n }
{
    Cursor { variables: n, ..p }
}

pub fn with_constants(p: Cursor, n: u32) -> Cursor
    ensures { result ≡ with_constants p n }
{
    Cursor { constants: n, ..p }
}

// The next number for variable x, if it has none yet: number + 1 as a word of tag 0 in its own binding.
pub fn number_variable(w: &mut [u32], p: Cursor, x: u32) -> Cursor
    ensures { numbered_memory w.new result ≡ number_variable w.old p x }
{
    if cell_of(w, x) != 0 {
        return p;
    }
    let count = increment(p.variables);
    put_cell(w, x, truncate(TAGS * widen(count)));
    with_variables(p, count)
}

// The first n records: no constant has shown.
fn clear_constants(n: u32, w: &mut [u32])
    ensures { w.new ≡ clear_constants n w.old }
{
    for c in (0..n).rev() {
        put_field(w, c, printing::fields::CONSTANT_NUMBER, 0);
    }
}

// The number of constant c, plus 1, where n constants have shown. Before the first the fields mean nothing.
fn constant_mark(w: &[u32], n: u32, c: u32) -> u32
    ensures { result ≡ constant_mark w.now n c }
{
    if n == 0 {
        return 0;
    }
    field(w, c, printing::fields::CONSTANT_NUMBER)
}

// The fields of the numbers are cleared before the first constant, and not before: most texts show none, and each field is in a
// cache line of its own.
fn clear_at_first(turns: u32, w: &mut [u32], n: u32)
    ensures { w.new ≡ clear_at_first turns w.old n }
{
    if n != 0 {
        return;
    }
    clear_constants(turns, w);
}

// The next number for the constant that act c made, if it has none yet: number + 1 in field 63 of its record.
pub fn number_constant(turns: u32, w: &mut [u32], p: Cursor, c: u32) -> Cursor
    ensures { numbered_memory w.new result ≡ number_constant turns w.old p c }
{
    if constant_mark(w, p.constants, c) != 0 {
        return p;
    }
    clear_at_first(turns, w, p.constants);
    let count = increment(p.constants);
    put_field(w, c, printing::fields::CONSTANT_NUMBER, count);
    with_constants(p, count)
}
