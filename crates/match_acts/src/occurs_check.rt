// A range check (the occurs check, with levels) at a variable and at a constant, and the binding that it ends in.
// Each function is a definition of the crate machine, and its contract says so.
ghost use Rattle.std.specs.Prelude.{◌≡◌, ◌-◌, min};
ghost use Rattle.machine.specs.Records.{made};
ghost use Rattle.machine.specs.Matching.{bind_value, pass_node, visit_variable, visit_constant};
ghost use Rattle.match_acts.specs.Visits.{passed};

use super::pairs::due_pairs;
use machine::{Registers, fields};
use machine_memory::cells::level_of;
use machine_memory::registers::{with_nodes, with_trail};
use machine_memory::trail::effect;
use machine_memory::words::{increment, name_of};
use memory::field;

// What a node of a range check comes to: none where it fails, else the variable to lower, its level then, and the nodes left. The variable
// is a number, 0 for none, since the trail entry has it in the lent buffer.
pub type Visit = Option<(u32, u32, u32)>;

// 2^32, the bit above a level.
const BIT_32: usize = 4294967296;

// The range check has passed: lowers z to k, binds, goes on with the pairs.
#[tactic(auto, unfolding(machine::specs::Matching::bind_value))]
pub fn bind_value(w: &mut [u32], r: Registers, z: u32, k: u32) -> Registers
    ensures { made w.new result ≡ bind_value w.old r z k }
{
    let u = r.acts;
    let entry = increment(u);
    effect(w, u, z, k, r.left, r.right, r.trail);
    due_pairs(w, with_trail(r, entry), r.pairs)
}

// A node has passed: lowers z to k (0: nothing), goes on with the nodes at e.
#[tactic(auto, unfolding(machine::specs::Matching::pass_node))]
pub fn pass_node(w: &mut [u32], r: Registers, z: u32, k: u32, e: u32) -> Registers
    ensures { made w.new result ≡ pass_node w.old r z k e }
{
    if e == 0 {
        return bind_value(w, r, z, k);
    }
    let u = r.acts;
    let entry = increment(u);
    effect(w, u, z, k, 0, 0, r.trail);
    with_nodes(with_trail(r, entry), e)
}

// Document 02, W-205: a difference that is cut at zero (saturating subtraction), with no branch. 2^32 + a - b has the bit of 2^32
// exactly if b is at most a, and below that bit it is then the difference.
#[tactic(auto, using(crate::proofs::Laws::cut_difference))]
fn saturating_sub(a: u32, b: u32) -> u32
    ensures { result ≡ a - b }
{
    let s = BIT_32 + a as usize - b as usize;
    (s % BIT_32 * (s / BIT_32)) as u32
}

// The lower of two levels: how far the first is above the second, taken from the first.
fn min(a: u32, b: u32) -> u32
    ensures { result ≡ min a b }
{
    a - saturating_sub(a, b)
}

// The node is a variable: not the one to be bound; lowered to its level.
#[tactic(auto, unfolding(machine::specs::Matching::visit_variable, crate::specs::Visits::passed))]
pub fn visit_variable(w: &[u32], r: Registers, e: u32, x: u32) -> Visit
    ensures { passed w.now r result ≡ visit_variable w.now r e x }
{
    if x == r.left {
        return None;
    }
    let level = level_of(w, name_of(x));
    let limit = level_of(w, name_of(r.left));
    Some((x, min(level, limit), e))
}

// The node is a made constant: not above the level of the variable.
#[tactic(auto, unfolding(machine::specs::Matching::visit_constant, crate::specs::Visits::passed))]
pub fn visit_constant(w: &[u32], r: Registers, e: u32, x: u32) -> Visit
    ensures { passed w.now r result ≡ visit_constant w.now r e x }
{
    let level = field(w, name_of(x), fields::CONSTANT_LEVEL);
    let limit = level_of(w, name_of(r.left));
    (level <= limit).then_some((0, 0, e))
}
