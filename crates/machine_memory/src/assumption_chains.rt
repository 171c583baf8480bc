// The chain of a program's assumptions, from the latest to the oldest, with depths and jumps: in the default order the assumptions are
// tried oldest first (W-207), and the one of a given depth is found in a number of steps that is logarithmic in the chain's length.
// Each function is a definition of the crate machine, and its contract says so.
ghost use Rattle.std.specs.Prelude.{◌≡◌, ◌<◌, ◌+◌};
ghost use Rattle.machine.specs.AssumptionChains.{assumption_field, parent_of, jump_for, put_chain, step_towards, find_ancestor};
ghost use Rattle.machine.specs.AssumptionChains.{oldest_of, oldest_for, later_of};

use super::words::increment;
use machine::fields;
use memory::{field, put_field, widen};

// Field f of the assumption that p names, 0 for none.
#[tactic(auto, unfolding(machine::specs::AssumptionChains::assumption_field))]
fn assumption_field(w: &[u32], p: u32, f: u32) -> u32
    ensures { result ≡ assumption_field w.now p f }
{
    if p == 0 {
        return 0;
    }
    field(w, p - 1, f)
}

// The assumption made before p, 0 if there is none.
pub fn parent_of(w: &[u32], p: u32) -> u32
    ensures { result ≡ parent_of w.now p }
{
    assumption_field(w, p, fields::ASSUMPTION_NEXT)
}

// The jump of a record whose parent is p.
#[tactic(auto, unfolding(machine::specs::AssumptionChains::jump_for))]
fn jump_for(w: &[u32], p: u32) -> u32
    ensures { result ≡ jump_for w.now p }
{
    let jump = assumption_field(w, p, fields::ASSUMPTION_JUMP);
    let after = assumption_field(w, jump, fields::ASSUMPTION_JUMP);
    let ends = widen(assumption_field(w, p, fields::ASSUMPTION_DEPTH))
        + widen(assumption_field(w, after, fields::ASSUMPTION_DEPTH));
    let middle = 2 * widen(assumption_field(w, jump, fields::ASSUMPTION_DEPTH));
    if ends == middle {
        return after;
    }
    p
}

// The oldest assumption of the chain p, 0 if it has none.
pub fn oldest_of(w: &[u32], p: u32) -> u32
    ensures { result ≡ oldest_of w.now p }
{
    assumption_field(w, p, fields::ASSUMPTION_OLDEST)
}

// The oldest of the chain of record u, whose parent is p.
#[tactic(auto, unfolding(machine::specs::AssumptionChains::oldest_for))]
fn oldest_for(w: &[u32], u: u32, p: u32) -> u32
    ensures { result ≡ oldest_for w.now u p }
{
    if p == 0 {
        return increment(u);
    }
    oldest_of(w, p)
}

// Writes the depth, the jump and the oldest of record u, whose parent is p.
#[tactic(auto, unfolding(machine::specs::AssumptionChains::put_chain))]
pub fn put_chain(w: &mut [u32], u: u32, p: u32)
    ensures { w.new ≡ put_chain w.old u p }
{
    let depth = increment(assumption_field(w, p, fields::ASSUMPTION_DEPTH));
    let jump = jump_for(w, p);
    let oldest = oldest_for(w, u, p);
    put_field(w, u, fields::ASSUMPTION_DEPTH, depth);
    put_field(w, u, fields::ASSUMPTION_JUMP, jump);
    put_field(w, u, fields::ASSUMPTION_OLDEST, oldest);
}

// One step from p towards the assumption of depth d: along the jump, unless it goes past that one.
#[tactic(auto, unfolding(machine::specs::AssumptionChains::step_towards))]
fn step_towards(w: &[u32], p: u32, d: u32) -> u32
    ensures { result ≡ step_towards w.now p d }
{
    let jump = assumption_field(w, p, fields::ASSUMPTION_JUMP);
    if assumption_field(w, jump, fields::ASSUMPTION_DEPTH) < d {
        return parent_of(w, p);
    }
    jump
}

// The assumption of depth d on the chain p, found in at most n steps.
fn find_ancestor(n: u32, w: &[u32], p: u32, d: u32) -> u32
    ensures { result ≡ find_ancestor n w.now p d }
{
    let mut at = p;
    for _turn in 0..n {
        if assumption_field(w, at, fields::ASSUMPTION_DEPTH) <= d {
            return at;
        }
        at = step_towards(w, at, d);
    }
    at
}

// The assumption of the chain p that was made after h, 0 if h is the latest.
#[tactic(auto, unfolding(machine::specs::AssumptionChains::later_of))]
pub fn later_of(w: &[u32], p: u32, h: u32) -> u32
    ensures { result ≡ later_of w.now p h }
{
    let depth = assumption_field(w, h, fields::ASSUMPTION_DEPTH);
    let latest = assumption_field(w, p, fields::ASSUMPTION_DEPTH);
    if depth < latest {
        return find_ancestor(latest, w, p, depth + 1);
    }
    0
}
