// Request W-207: how many members stand before those of a hypothesis in the default order.
// Each function is a definition of the crate line_checking, and its contract says so.
ghost use Rattle.std.specs.Prelude.{◌≡◌};
ghost use Rattle.line_checking.specs.HypothesisChains.{saturate};
ghost use Rattle.line_checking.specs.Members.{sheet_members, start_after};

use memory::{field, widen};
use node_table::{clause_node, members};
use scanning::fields;
use sheet_format::limits;

const LAST: usize = limits::MAX_NUMBER as usize;

// How many members the sheet's clauses have, of which there are so many.
pub fn sheet_members(clauses: u32, t: &[u32]) -> usize
    ensures { result ≡ sheet_members clauses t.now 0 }
{
    let mut total: usize = 0;
    for i in 0..clauses {
        total += widen(members(t, clause_node(t, i)));
    }
    total
}

// Members are counted up to 65,535 only: no line can name a place past it.
pub fn saturate(n: usize) -> u32
    ensures { result ≡ saturate n }
{
    n.min(LAST) as u32
}

// The start of a hypothesis that is made after the hypothesis h.
pub fn start_after(t: &[u32], clauses: u32, w: &[u32], h: u32) -> u32
    ensures { result ≡ start_after t.now clauses w.now h }
{
    if h == 0 {
        return saturate(sheet_members(clauses, t));
    }
    let start = field(w, h - 1, fields::HYPOTHESIS_START);
    let node = field(w, h - 1, fields::HYPOTHESIS_NODE);
    let count = members(t, node);
    saturate(widen(start) + widen(count))
}
