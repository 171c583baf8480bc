// Taking a goal of the form &, | or > on the lent work buffer and the registers.
// Each function is a definition of the crate machine, and its contract says so.
ghost use Rattle.std.specs.Prelude.{◌≡◌};
ghost use Rattle.machine.specs.Records.{made};
ghost use Rattle.machine.specs.Goals.{take_and, right_branch, take_or, take_implies};

use super::path_lines::extend_path;
use machine::{Registers, lines};
use machine_memory::assumption_chains::put_chain;
use machine_memory::records::{put_assumption, put_goal};
use machine_memory::registers::{
    save_choice, with_choice, with_goal, with_goals, with_member, with_path,
};
use machine_memory::words::increment;
use node_table::child;

// &: left, then right.
#[tactic(auto, unfolding(machine::specs::Goals::take_and))]
pub fn take_and(t: &[u32], w: &mut [u32], r: Registers) -> Registers
    ensures { made w.new result ≡ take_and t.now w.old r }
{
    let left = child(t, r.node, 0);
    let right = child(t, r.node, 1);
    let s = with_goals(extend_path(w, r, lines::AND), increment(r.acts));
    put_goal(w, r.acts, right, r.frame, r.program, r.level, r.goals);
    with_goal(s, left, r.frame, r.program, r.level)
}

// The right side of |, as the registers that go on with it.
#[tactic(auto, unfolding(machine::specs::Goals::right_branch))]
fn right_branch(t: &[u32], r: Registers) -> Registers
    ensures { result ≡ right_branch t.now r }
{
    let s = with_path(r, increment(r.acts), lines::RIGHT);
    let other = child(t, r.node, 1);
    let goal = with_goal(s, other, r.frame, r.program, r.level);
    with_member(goal, 0, 0, 0, 0)
}

// |: left; right is the alternative.
#[tactic(auto, unfolding(machine::specs::Goals::take_or))]
pub fn take_or(t: &[u32], w: &mut [u32], r: Registers) -> Registers
    ensures { made w.new result ≡ take_or t.now w.old r }
{
    let s = with_choice(extend_path(w, r, lines::LEFT), increment(r.acts));
    save_choice(w, r.acts, right_branch(t, r));
    with_goal(s, child(t, r.node, 0), r.frame, r.program, r.level)
}

// >: the clause is assumed, in the goal's frame: it is the latest of that goal's assumptions.
#[tactic(auto, unfolding(machine::specs::Goals::take_implies))]
pub fn take_implies(t: &[u32], w: &mut [u32], r: Registers) -> Registers
    ensures { made w.new result ≡ take_implies t.now w.old r }
{
    let clause = child(t, r.node, 0);
    let goal = child(t, r.node, 1);
    let s = extend_path(w, r, lines::ASSUME);
    put_assumption(w, r.acts, clause, r.frame, r.program);
    put_chain(w, r.acts, r.program);
    with_goal(s, goal, r.frame, increment(r.acts), r.level)
}
