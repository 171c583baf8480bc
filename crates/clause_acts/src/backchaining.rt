// Trying a member. Each function is a definition of the crate machine, and its contract says so.
ghost use Rattle.std.specs.Prelude.{◌≡◌};
ghost use Rattle.machine.specs.Records.{made};
ghost use Rattle.machine.specs.Backchaining.{try_member, try_next};
ghost use Rattle.machine_memory.specs.Settling.{settled};

use super::effects::{put_try, tried};
use super::next_member::{clause_of, next_member, put_prefix};
use clause_members::{Found, head_of, member, member_leaf};
use goal_acts::goals::try_from;
use machine::Registers;
use machine_memory::records::put_pairs;
use machine_memory::words::increment;
use match_acts::pairs::{due_pairs, pairs_from};
use node_table::label;

// The predicates agree: the argument pairs are due; next are the registers at the next member.
#[tactic(auto, unfolding(machine::specs::Backchaining::try_member))]
pub fn try_member(
    t: &[u32],
    c: u32,
    w: &mut [u32],
    r: Registers,
    m: Found,
    next: Registers,
) -> Registers
    ensures { made w.new result ≡ try_member t.now c w.old r m next }
{
    let u = r.acts;
    put_prefix(w, r, m);
    put_try(t, c, w, r, m, next);
    let p = increment(u);
    put_pairs(w, u, r.node, r.frame, head_of(t, m.leaf), p, 0);
    due_pairs(w, tried(t, c, r, m, next), pairs_from(t, w, p, 0))
}

// One act: the member that is due. First the predicates are compared; if they differ the try fails, and the next member is due. The
// prefix is looked for only where they agree.
#[tactic(auto, unfolding(machine::specs::Backchaining::try_next, machine::specs::Backchaining::try_found))]
pub fn try_next(t: &[u32], c: u32, w: &mut [u32], r: Registers) -> Registers
    ensures { settled w.new result ≡ try_next t.now c w.old r }
{
    let clause = clause_of(t, w, r);
    // One call for both ends of the try keeps the next member in this function.
    let next = next_member(t, c, w, r);
    if label(t, r.node) == label(t, head_of(t, member_leaf(t, clause, r.member))) {
        return try_member(t, c, w, r, member(t, clause, r.member), next);
    }
    try_from(c, next)
}
