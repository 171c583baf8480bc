// D lines for E and U: the right rule is done to the sequent that is due. Each function is a definition of the crate
// line_checking, and its contract says so.
ghost use Rattle.std.specs.Prelude.{◌≡◌, ◌<◌};
ghost use Rattle.line_checking.specs.Sequents.{made};
ghost use Rattle.line_checking.specs.Rules.{bind_goal, some_line, all_line};

use super::result_lines::{after, begins_with};
use checker_state::registers::{broken, with_sequent};
use checker_state::{CheckInput, Line};
use instances::frames::bind_frame;
use line_checking::Registers;
use memory::widen;
use node_table::{child, label};
use term_scanner::{scan_symbol, scan_term};

// The goal's variable stands for the term from i to the end of the line; the level is k after it.
fn bind_goal(t: &[u32], w: &mut [u32], r: Registers, line: Line, i: usize, k: u32) -> Registers
    requires { i < 4294967296 }
    ensures { made w.new result ≡ bind_goal t.now w.old r line.number i line.end k }
{
    let name = label(t, r.node);
    let goal = child(t, r.node, 0);
    let q = line.number;
    bind_frame(w, q, r.frame, name, i as u32, line.end as u32);
    with_sequent(r, goal, q, r.hypotheses, k, r.rest)
}

// The line of E: a term, not of a higher level than the sequent's.
pub fn some_line(input: CheckInput<'_>, w: &mut [u32], r: Registers, line: Line) -> Registers
    ensures { made w.new result ≡ some_line input.entry.sheet.now input.entry.table.now input.entry.shape.symbols
        input.entry.text.now w.old r line.number line.at line.end }
{
    let Some(i) = after(b"D\tsome\t", input.text, line.at) else {
        return broken(r);
    };
    match scan_term(
        input.text.len(),
        input.sheet,
        input.table,
        input.shape.symbols,
        input.text,
        i,
    ) {
        Some((j, k)) if j == line.end && k <= r.level => bind_goal(
            input.table,
            w,
            r,
            line,
            i,
            r.level,
        ),
        _ => broken(r),
    }
}

// The line of U: a made constant, of the level above the sequent's.
pub fn all_line(t: &[u32], text: &[u8], w: &mut [u32], r: Registers, line: Line) -> Registers
    ensures { made w.new result ≡ all_line t.now text.now w.old r line.number line.at
        line.end }
{
    if !begins_with(b"D\tall\t!", text, line.at) {
        return broken(r);
    }
    let i = line.at + 6;
    match scan_symbol(text, i + 1) {
        Some((j, k)) if j == line.end && widen(k) == widen(r.level) + 1 => bind_goal(
            t, w, r, line, i, k,
        ),
        _ => broken(r),
    }
}
