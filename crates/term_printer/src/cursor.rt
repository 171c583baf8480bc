// The state of the printer: bytes, names, variables and constants written with it. Each function is a definition of the crate
// printing, and its contract says so; a function that leaves the work buffer alone says so for any memory.
ghost use Rattle.std.specs.Prelude.{◌≡◌, List, ℕ};
ghost use Rattle.printing.specs.Numbering.{printer, write_variable, write_constant};
ghost use Rattle.printing.specs.WriteTerms.{emit_to, write_name, write_functor, separator};

use super::numbering::with_position;
use super::output::{copy_bytes, emit, write_number};
use super::symbols::{write_constant, write_variable};
use super::{Bounds, Source};
use memory::widen;
use node_table::{name_length, name_start};
use printing::Cursor;
use sheet_format::limits::MAX_SYMBOLS;

pub fn emit_to(limit: u32, out: &mut [u8], p: Cursor, b: u8) -> Cursor
    ensures { (m : List ℕ) → printer m out.new result ≡ emit_to limit (printer m out.old p) b }
{
    let to = emit(out, limit, p.at, b);
    with_position(p, to)
}

// The name of symbol f, from the sheet.
fn write_name(source: &Source<'_>, limit: u32, out: &mut [u8], p: Cursor, f: u32) -> Cursor
    ensures { (m : List ℕ) → printer m out.new result ≡ write_name source.now.sheet.now source.now.table.now limit
        (printer m out.old p) f }
{
    let start = widen(name_start(source.table, f));
    let to = copy_bytes(
        name_length(source.table, f),
        source.sheet,
        start,
        out,
        limit,
        p.at,
    );
    with_position(p, to)
}

// What stands before the arguments, by its label: the name of a symbol, or a number in base ten (request W-204).
pub fn write_functor(source: &Source<'_>, limit: u32, out: &mut [u8], p: Cursor, l: u32) -> Cursor
    ensures { (m : List ℕ) → printer m out.new result ≡ write_functor source.now.sheet.now source.now.table.now limit
        (printer m out.old p) l }
{
    if l < MAX_SYMBOLS {
        return write_name(source, limit, out, p, l);
    }
    let to = write_number(out, limit, p.at, l - MAX_SYMBOLS);
    with_position(p, to)
}

// What stands before argument j.
pub fn separator(j: u32) -> u8
    ensures { result ≡ separator j }
{
    if j == 0 {
        return b'(';
    }
    b','
}

// The state of a writing. All levels of a term share one by reference, so that a level takes little stack: at most 192 bytes at -O3.
#[derive(Clone, Copy)]
pub struct State {
    pub cursor: Cursor,
    pub bounds: Bounds,
}

// The functions above, and those of the module symbols that show a symbol, on the cursor in the state.
impl State {
    pub fn emit(&mut self, out: &mut [u8], b: u8)
        ensures { ((m : List ℕ) → printer m out.new self.new.cursor ≡ emit_to self.old.bounds.limit
            (printer m out.old self.old.cursor) b) × (self.new.bounds ≡ self.old.bounds) }
    {
        self.cursor = emit_to(self.bounds.limit, out, self.cursor, b);
    }

    pub fn write_functor(&mut self, source: &Source<'_>, out: &mut [u8], l: u32)
        ensures { ((m : List ℕ) → printer m out.new self.new.cursor ≡ write_functor source.now.sheet.now source.now.table.now
            self.old.bounds.limit (printer m out.old self.old.cursor) l)
            × (self.new.bounds ≡ self.old.bounds) }
    {
        self.cursor = write_functor(source, self.bounds.limit, out, self.cursor, l);
    }

    pub fn write_variable(&mut self, w: &mut [u32], out: &mut [u8], x: u32)
        ensures { (printer w.new out.new self.new.cursor ≡ write_variable self.old.bounds.limit
            (printer w.old out.old self.old.cursor) x)
            × (self.new.bounds ≡ self.old.bounds) }
    {
        self.cursor = write_variable(self.bounds.limit, w, out, self.cursor, x);
    }

    pub fn write_constant(&mut self, w: &mut [u32], out: &mut [u8], x: u32)
        ensures { (printer w.new out.new self.new.cursor ≡ write_constant self.old.bounds.turns
            self.old.bounds.limit (printer w.old out.old self.old.cursor) x)
            × (self.new.bounds ≡ self.old.bounds) }
    {
        let turns = self.bounds.turns;
        self.cursor = write_constant(turns, self.bounds.limit, w, out, self.cursor, x);
    }
}
