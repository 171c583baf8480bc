// D lines for true, &, | and >: the right rule is done to the sequent that is due. Each function is a definition of the crate
// line_checking, and its contract says so.
ghost use Rattle.std.specs.Prelude.{◌≡◌, List, ℕ};
ghost use Rattle.line_checking.specs.Sequents.{made};
ghost use Rattle.line_checking.specs.Rules.{with_child, true_line, and_line, or_line, assume_line};

use super::result_lines::is_line;
use checker_state::Line;
use checker_state::hypothesis_chains::{links_after, put_links};
use checker_state::open_sequents::{next_sequent, put_hypothesis, put_sequent};
use checker_state::registers::{broken, with_sequent};
use checker_state::starts::start_after;
use line_checking::Registers;
use node_table::{child, members};

// Child j of the goal is due in the place of the goal.
pub fn with_child(t: &[u32], r: Registers, j: u32) -> Registers
    ensures { result ≡ with_child t.now r j }
{
    with_sequent(
        r,
        child(t, r.node, j),
        r.frame,
        r.hypotheses,
        r.level,
        r.rest,
    )
}

// Y: the next sequent is due.
pub fn true_line(text: &[u8], w: &[u32], r: Registers, line: Line) -> Registers
    ensures { made w.now result ≡ true_line text.now w.now r line.at line.end }
{
    if is_line(b"D\ttrue", text, line) {
        return next_sequent(w, r);
    }
    broken(r)
}

// &: the left side is due, the right side after it.
pub fn and_line(t: &[u32], text: &[u8], w: &mut [u32], r: Registers, line: Line) -> Registers
    ensures { made w.new result ≡ and_line t.now text.now w.old r line.number line.at
        line.end }
{
    if is_line(b"D\tand", text, line) {
        let q = line.number;
        let left = child(t, r.node, 0);
        let right = child(t, r.node, 1);
        put_sequent(w, q, right, r.frame, r.hypotheses, r.level, r.rest);
        return with_sequent(r, left, r.frame, r.hypotheses, r.level, q + 1);
    }
    broken(r)
}

// |: the side that the line says is due.
pub fn or_line(t: &[u32], text: &[u8], r: Registers, line: Line) -> Registers
    ensures { (w : List ℕ) → made w result ≡ or_line t.now text.now w r line.at line.end }
{
    if is_line(b"D\tleft", text, line) {
        return with_child(t, r, 0);
    }
    if is_line(b"D\tright", text, line) {
        return with_child(t, r, 1);
    }
    broken(r)
}

// >: the clause is the latest hypothesis, which starts after the others (request W-207) and is linked to them.
pub fn assume_line(
    t: &[u32],
    clauses: u32,
    text: &[u8],
    w: &mut [u32],
    r: Registers,
    line: Line,
) -> Registers
    ensures { made w.new result ≡ assume_line t.now clauses text.now w.old r line.number
        line.at line.end }
{
    if is_line(b"D\tassume", text, line) {
        let q = line.number;
        let clause = child(t, r.node, 0);
        let goal = child(t, r.node, 1);
        let start = start_after(t, clauses, w, r.hypotheses);
        let links = links_after(w, r.hypotheses, members(t, clause));
        put_hypothesis(w, q, clause, r.frame, r.hypotheses, start);
        put_links(w, q, links);
        return with_sequent(r, goal, r.frame, q + 1, r.level, r.rest);
    }
    broken(r)
}
