// The clause at a place of a sequent: a hypothesis or a clause of the sheet, in the order in force (request W-207).
// Each function is a definition of the crate line_checking, and its contract says so.
ghost use Rattle.std.specs.Prelude.{◌≡◌};
ghost use Rattle.line_checking.specs.Members.{clause_from, hypothesis_from, oldest_from, place_from};

use super::hypothesis_chains::step_before;
use memory::field;
use node_table::{clause_node, layout, members, order_number};
use scanning::fields;

// Member k of the sheet's clauses, of which there are so many.
pub fn clause_from(clauses: u32, t: &[u32], k: u32) -> Option<(u32, u32, u32)>
    ensures { result ≡ clause_from clauses t.now 0 k }
{
    let mut left = k;
    for i in 0..clauses {
        let node = clause_node(t, i);
        let count = members(t, node);
        if left < count {
            return Some((node, 0, left));
        }
        left -= count;
    }
    None
}

// Member k counted from the hypothesis h on, of at most n hypotheses, then the sheet's clauses: the order of `O latest`. Where k passes
// all members up to a jump's target, the walk goes on there.
pub fn hypothesis_from(
    n: u32,
    t: &[u32],
    clauses: u32,
    w: &[u32],
    h: u32,
    k: u32,
) -> Option<(u32, u32, u32)>
    ensures { result ≡ hypothesis_from n t.now clauses w.now h k }
{
    let mut next = h;
    let mut left = k;
    for _turn in 0..n {
        if next == 0 {
            return clause_from(clauses, t, left);
        }
        let q = next - 1;
        let node = field(w, q, fields::HYPOTHESIS_NODE);
        let count = members(t, node);
        if left < count {
            return Some((node, field(w, q, fields::HYPOTHESIS_FRAME), left));
        }
        let passed = field(w, q, fields::HYPOTHESIS_PASSED);
        if left < passed {
            next = field(w, q, fields::HYPOTHESIS_NEXT);
            left -= count;
            continue;
        }
        next = field(w, q, fields::HYPOTHESIS_JUMP);
        left -= passed;
    }
    clause_from(clauses, t, left)
}

// Member k in the default order (request W-207): the walk goes from the hypothesis h, in at most n steps, until one starts at k or before.
pub fn oldest_from(
    n: u32,
    t: &[u32],
    clauses: u32,
    w: &[u32],
    h: u32,
    k: u32,
) -> Option<(u32, u32, u32)>
    ensures { result ≡ oldest_from n t.now clauses w.now h k }
{
    let mut next = h;
    for _turn in 0..n {
        if next == 0 {
            return clause_from(clauses, t, k);
        }
        let q = next - 1;
        let start = field(w, q, fields::HYPOTHESIS_START);
        if start <= k {
            let node = field(w, q, fields::HYPOTHESIS_NODE);
            let number = k - start;
            if number < members(t, node) {
                return Some((node, field(w, q, fields::HYPOTHESIS_FRAME), number));
            }
            return None;
        }
        next = step_before(w, next, k);
    }
    clause_from(clauses, t, k)
}

// Member k of the hypotheses from h on and the sheet's clauses, in the order in force (request W-207).
pub fn place_from(t: &[u32], clauses: u32, w: &[u32], h: u32, k: u32) -> Option<(u32, u32, u32)>
    ensures { result ≡ place_from t.now clauses w.now h k }
{
    if order_number(t) == layout::DEFAULT_ORDER {
        return oldest_from(h, t, clauses, w, h, k);
    }
    hypothesis_from(h, t, clauses, w, h, k)
}
