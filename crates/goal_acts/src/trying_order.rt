// The order in which members are tried (request W-207): the first member of an atom, and what comes after the sheet's clauses.
// Each function is a definition of the crate machine, and its contract says so. The order is a number, since it lies in the lent table.
ghost use Rattle.std.specs.Prelude.{◌≡◌};
ghost use Rattle.machine.specs.Goals.{after_sheet, from_clause, first_member};

use machine::Registers;
use machine_memory::assumption_chains::oldest_of;
use machine_memory::registers::with_member;
use node_table::{layout, order_number};

// After the sheet's c clauses: by default the oldest assumption, with `O latest` nothing; p is the place of the member.
#[tactic(auto, unfolding(machine::specs::Goals::after_sheet))]
pub fn after_sheet(t: &[u32], c: u32, w: &[u32], r: Registers, p: u32) -> Registers
    ensures { result ≡ after_sheet t.now c w.now r p }
{
    if order_number(t) == layout::DEFAULT_ORDER {
        return with_member(r, oldest_of(w, r.program), c, 0, p);
    }
    with_member(r, 0, c, 0, p)
}

// The sheet's i-th clause, or what comes after the last.
#[tactic(auto, unfolding(machine::specs::Goals::from_clause))]
pub fn from_clause(t: &[u32], c: u32, w: &[u32], r: Registers, i: u32, p: u32) -> Registers
    ensures { result ≡ from_clause t.now c w.now r i p }
{
    if i < c {
        return with_member(r, 0, i, 0, p);
    }
    after_sheet(t, c, w, r, p)
}

// The first member: by default that of the sheet's first clause, with `O latest` that of the latest assumption.
#[tactic(auto, unfolding(machine::specs::Goals::first_member))]
pub fn first_member(t: &[u32], c: u32, w: &[u32], r: Registers) -> Registers
    ensures { result ≡ first_member t.now c w.now r }
{
    if order_number(t) != layout::DEFAULT_ORDER {
        return with_member(r, r.program, 0, 0, 1);
    }
    from_clause(t, c, w, r, 0, 1)
}
