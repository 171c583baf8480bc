// D lines for atoms: a member of the program at a place. Each function is a definition of the crate line_checking, and its
// contract says so.
ghost use Rattle.std.specs.Prelude.{◌≡◌, ◌-◌, cond, eqb, None};
ghost use Rattle.line_checking.specs.Sequents.{made};
ghost use Rattle.line_checking.specs.Clauses.{with_body, use_member, clause_line};
ghost use Rattle.line_checking.specs.Members.{place_from};

use super::prefixes::{Prefix, prefix_from};
use super::result_lines::after;
use checker_state::open_sequents::next_sequent;
use checker_state::places::place_from;
use checker_state::registers::{broken, with_sequent};
use checker_state::{CheckInput, Line};
use clause_members::{head_of, member};
use instances::frames::copy_ranges;
use instances::{Instance, same_atoms};
use line_checking::Registers;
use node_table::{child, kind, kinds};
use scanning::fields;
use term_scanner::tokens::scan_number;

// The body of the member at node n, if any, is the new goal; its names stand for terms in frame q.
pub fn with_body(t: &[u32], w: &[u32], r: Registers, q: u32, n: u32) -> Registers
    ensures { result ≡ with_body t.now w.now r q n }
{
    if kind(t, n) == kinds::IMPLIES {
        return with_sequent(r, child(t, n, 0), q, r.hypotheses, r.level, r.rest);
    }
    next_sequent(w, r)
}

// The atom that is due is the head of the member.
fn use_member(input: CheckInput<'_>, w: &[u32], r: Registers, q: u32, n: u32) -> Registers
    ensures { made w.now result ≡ use_member input.entry.sheet.now input.entry.table.now input.entry.text.now
        w.now r q n }
{
    let goal = Instance {
        node: r.node,
        frame: r.frame,
    };
    let head = Instance {
        node: head_of(input.table, n),
        frame: q,
    };
    if same_atoms(input.sheet, input.table, input.text, w, goal, head) {
        return with_body(input.table, w, r, q, n);
    }
    broken(r)
}

// The member at place k, counted from 1: of the hypotheses from h on and the sheet's clauses, in the order in force (request W-207).
pub fn place_at(t: &[u32], clauses: u32, w: &[u32], h: u32, k: u32) -> Option<(u32, u32, u32)>
    ensures { result ≡ cond (eqb k 0) None (place_from t.now clauses w.now h (k - 1)) }
{
    if k == 0 {
        return None;
    }
    place_from(t, clauses, w, h, k - 1)
}

// The line of an atom: the place of a member, then the terms of its prefix; the line ends after the last one.
pub fn clause_line(input: CheckInput<'_>, w: &mut [u32], r: Registers, line: Line) -> Registers
    ensures { made w.new result ≡ clause_line input.entry.sheet.now input.entry.table.now input.entry.shape.symbols input.entry.shape.clauses
        input.entry.text.now w.old r line.number line.at line.end }
{
    let Some(i) = after(b"D\tclause\t", input.text, line.at) else {
        return broken(r);
    };
    let Some((k, at)) = scan_number(input.text, i) else {
        return broken(r);
    };
    let Some((n, f, c)) = place_at(input.table, input.shape.clauses, w, r.hypotheses, k) else {
        return broken(r);
    };
    let q = line.number;
    copy_ranges(fields::FRAME_NUMBERS, w, q, f, 0);
    let m = member(input.table, n, c);
    let prefix = Prefix {
        names: m.names,
        count: m.count,
        level: r.level,
        at,
    };
    match prefix_from(input, w, line, prefix) {
        Some((j, _)) if j == line.end => use_member(input, w, r, q, m.leaf),
        _ => broken(r),
    }
}
