// Links between the lines of the path, and the lent work buffer cleared of the numbers of variables.
// Each function is a definition of the crate printing, and its contract says so.
ghost use Rattle.std.specs.Prelude.{◌≡◌, cond, ◌+◌, ◌<◌, eqb};
ghost use Rattle.machine.specs.Records.{cell_of, put_cell};
ghost use Rattle.machine.specs.Words.{tag_of};
ghost use Rattle.printing.specs.PathLinks.{link_word, linked, link_path, clear_variables};

use machine::fields;
use machine_memory::cells::{cell_of, put_cell, record_of};
use machine_memory::words::{tag_of, truncate};
use memory::{field, put_field, widen};

const LINE_CODES: usize = printing::LINE_CODES as usize;

// A pointer to the record of a line, and which line it is. A link is a number, 0 for none, since it stands in lent memory.
pub fn link_word(p: u32, k: u32) -> u32
    ensures { result ≡ link_word p k }
{
    truncate(LINE_CODES * widen(p) + widen(k))
}

// Links at most n lines, from pointer p on, which is latest first, in the order taken; e is the link to those done.
pub fn link_path(n: u32, w: &mut [u32], p: u32, k: u32, e: u32) -> u32
    ensures { linked w.new result ≡ link_path n w.old p k e }
{
    let mut pointer = p;
    let mut line = k;
    let mut link = e;
    for _turn in 0..n {
        if pointer == 0 {
            return link;
        }
        let u = record_of(pointer);
        let before = field(w, u, fields::PATH_BEFORE);
        let which = field(w, u, fields::PATH_LINE);
        put_field(w, u, printing::fields::NEXT_LINE, link);
        link = link_word(pointer, line);
        pointer = before;
        line = which;
    }
    link
}

// Variable x has not shown.
fn clear_variable(w: &mut [u32], x: u32)
    ensures { w.new ≡ cond (eqb (tag_of (cell_of w.old x)) 0) (put_cell w.old x 0) w.old }
{
    if tag_of(cell_of(w, x)) != 0 {
        return;
    }
    put_cell(w, x, 0);
}

// The first n variables: none has shown.
pub fn clear_variables(n: u32, w: &mut [u32])
    ensures { w.new ≡ clear_variables n w.old }
{
    for x in (0..n).rev() {
        clear_variable(w, x);
    }
}
