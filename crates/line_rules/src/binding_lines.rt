// The B lines of an answer text. Each function is a definition of the crate line_checking, and its contract says so.
ghost use Rattle.std.specs.Prelude.{◌≡◌, ◌<◌};
ghost use Rattle.line_checking.specs.Sequents.{made};
ghost use Rattle.line_checking.specs.Bindings.{binds_variable, bind_line};

use super::result_lines::begins_with;
use checker_state::registers::{bound, broken};
use checker_state::{CheckInput, Line};
use instances::frames::bind_frame;
use line_checking::Registers;
use memory::{byte, widen};
use term_scanner::scan_term;

const ZERO: usize = b'0' as usize;

// Whether the line at i begins with `B` and the variable v.
pub fn binds_variable(text: &[u8], i: usize, v: u32) -> bool
    requires { i < 4294967296 }
    ensures { result ≡ binds_variable text.now i v }
{
    begins_with(b"B\t", text, i)
        && byte(text, i + 2) as usize == ZERO + widen(v)
        && byte(text, i + 3) == b'\t'
}

// A B line: the term of the variable that is due, of level 0.
pub fn bind_line(input: CheckInput<'_>, w: &mut [u32], r: Registers, line: Line) -> Registers
    ensures { made w.new result ≡ bind_line input.entry.sheet.now input.entry.table.now input.entry.shape.symbols input.entry.shape.goal
        input.entry.text.now w.old r line.number line.at line.end }
{
    if !binds_variable(input.text, line.at, r.node) {
        return broken(r);
    }
    let i = line.at + 4;
    match scan_term(
        input.text.len(),
        input.sheet,
        input.table,
        input.shape.symbols,
        input.text,
        i,
    ) {
        Some((j, k)) if j == line.end && k == 0 => {
            let q = line.number;
            bind_frame(w, q, r.frame, r.node, i as u32, j as u32);
            bound(input.table, input.shape.goal, r, widen(r.node) + 1, q)
        }
        _ => broken(r),
    }
}
