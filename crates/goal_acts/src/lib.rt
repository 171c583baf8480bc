// Taking whatever goal is due. Each function is a definition of the crate machine, and its contract says so.
// Table, number of clauses, buffer and registers are parameters of their own: most functions take two or three of them, and some only
// read the buffer, so a struct of all would be no plainer.
#![tactic(auto)]

mod connectives;
pub mod goals;
mod path_lines;
mod quantifiers;
pub mod trying_order;

ghost use Rattle.std.specs.Prelude.{◌≡◌};
ghost use Rattle.machine.specs.Goals.{take_goal};
ghost use Rattle.machine_memory.specs.Settling.{settled};

use connectives::{take_and, take_implies, take_or};
use goals::{take_atom, take_true};
use machine::Registers;
use node_table::{kind, kinds};
use quantifiers::{take_exists, take_forall};

// By the kind of the goal's node.
#[tactic(auto, using(crate::proofs::Laws::settled_goals), unfolding(machine::specs::Goals::take_goal))]
pub fn take_goal(t: &[u32], c: u32, w: &mut [u32], r: Registers) -> Registers
    ensures { settled w.new result ≡ take_goal t.now c w.old r }
{
    match kind(t, r.node) {
        kinds::ATOM => take_atom(t, c, w, r),
        kinds::AND => take_and(t, w, r),
        kinds::OR => take_or(t, w, r),
        kinds::IMPLIES => take_implies(t, w, r),
        kinds::EXISTS => take_exists(t, w, r),
        kinds::FORALL => take_forall(t, w, r),
        _ => take_true(w, r),
    }
}
