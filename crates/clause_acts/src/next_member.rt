// The member that is due for an atom, the one after it, and its prefix. Each function is a definition of the crate machine, and its
// contract says so.
ghost use Rattle.std.specs.Prelude.{◌≡◌, ◌-◌, cond, eqb, None, Some};
ghost use Rattle.memory.specs.Records.{field};
ghost use Rattle.machine.specs.Backchaining.{clause_of, clause_frame, after_assumption, next_clause, next_member, put_prefix};

use clause_members::Found;
use goal_acts::trying_order::from_clause;
use machine::{Registers, fields};
use machine_memory::assumption_chains::{later_of, parent_of};
use machine_memory::frames::{copy_frame, put_fresh};
use machine_memory::registers::with_member;
use machine_memory::words::increment;
use memory::field;
use node_table::{clause_node, layout, members, order_number};
use sheet_format::limits;

// Field f of the assumption whose member is due; none where the member is one of the sheet's.
fn hypothesis_field(w: &[u32], r: Registers, f: u32) -> Option<u32>
    ensures { result ≡ cond (eqb r.hypothesis 0) None (Some (field w.now (r.hypothesis - 1) f)) }
{
    if r.hypothesis == 0 {
        return None;
    }
    Some(field(w, r.hypothesis - 1, f))
}

// The clause whose member is due: its node and its frame.
#[tactic(auto, unfolding(machine::specs::Backchaining::clause_of))]
pub fn clause_of(t: &[u32], w: &[u32], r: Registers) -> u32
    ensures { result ≡ clause_of t.now w.now r }
{
    match hypothesis_field(w, r, fields::ASSUMPTION_NODE) {
        Some(node) => node,
        None => clause_node(t, r.clause),
    }
}

#[tactic(auto, unfolding(machine::specs::Backchaining::clause_frame))]
pub fn clause_frame(w: &[u32], r: Registers) -> u32
    ensures { result ≡ clause_frame w.now r }
{
    hypothesis_field(w, r, fields::ASSUMPTION_FRAME).unwrap_or(0)
}

// After an assumption: by default the one made after it, with `O latest` the one made before it or else the sheet's first clause
// (request W-207); p is the place of the member.
#[tactic(auto, unfolding(machine::specs::Backchaining::after_assumption))]
pub fn after_assumption(t: &[u32], c: u32, w: &[u32], r: Registers, p: u32) -> Registers
    ensures { result ≡ after_assumption t.now c w.now r p }
{
    if order_number(t) == layout::DEFAULT_ORDER {
        return with_member(r, later_of(w, r.program, r.hypothesis), c, 0, p);
    }
    with_member(r, parent_of(w, r.hypothesis), 0, 0, p)
}

// At the first member of the clause after it.
#[tactic(auto, unfolding(machine::specs::Backchaining::next_clause))]
pub fn next_clause(t: &[u32], c: u32, w: &[u32], r: Registers) -> Registers
    ensures { result ≡ next_clause t.now c w.now r }
{
    let place = increment(r.place);
    if r.hypothesis == 0 {
        return from_clause(t, c, w, r, increment(r.clause), place);
    }
    after_assumption(t, c, w, r, place)
}

// At the member after it.
#[tactic(auto, unfolding(machine::specs::Backchaining::next_member))]
pub fn next_member(t: &[u32], c: u32, w: &[u32], r: Registers) -> Registers
    ensures { result ≡ next_member t.now c w.now r }
{
    let k = increment(r.member);
    if k < members(t, clause_of(t, w, r)) {
        return with_member(r, r.hypothesis, r.clause, k, increment(r.place));
    }
    next_clause(t, c, w, r)
}

// The frame of the try: the clause's, with fresh variables of the goal's level for the prefix of the member.
#[tactic(auto, unfolding(machine::specs::Backchaining::put_prefix))]
pub fn put_prefix(w: &mut [u32], r: Registers, m: Found)
    ensures { w.new ≡ put_prefix w.old r m }
{
    let u = r.acts;
    let f = clause_frame(w, r);
    copy_frame(limits::VARIABLE_NAMES, w, u, f, 0);
    put_fresh(m.count, w, u, m.names, r.next, r.level);
}
