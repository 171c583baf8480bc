// The records of the engine's machine, written whole: entries, goals, assumptions, the path, choice points, pairs.
// Each function is a definition of the crate machine, and its contract says so.
ghost use Rattle.std.specs.Prelude.{◌≡◌};
ghost use Rattle.machine.specs.Records.{put_entry, put_goal, put_assumption, put_path, put_use, put_choice, put_chosen, put_position, put_pairs};
ghost use Rattle.machine.specs.Records.{put_nodes};

use super::rows::put_row;
use machine::fields;

// A trail entry.
#[tactic(auto, unfolding(machine::specs::Records::put_entry, crate::specs::Rows::put_row))]
pub fn put_entry(w: &mut [u32], u: u32, lowered: u32, level: u32, bound: u32, before: u32)
    ensures { w.new ≡ put_entry w.old u lowered level bound before }
{
    put_row(
        w,
        u,
        fields::ENTRY_LOWERED,
        &[lowered, level, bound, before],
    );
}

// A goal that waits.
#[tactic(auto, unfolding(machine::specs::Records::put_goal, crate::specs::Rows::put_row))]
pub fn put_goal(w: &mut [u32], u: u32, node: u32, frame: u32, program: u32, level: u32, next: u32)
    ensures { w.new ≡ put_goal w.old u node frame program level next }
{
    put_row(
        w,
        u,
        fields::GOAL_NODE,
        &[node, frame, program, level, next],
    );
}

#[tactic(auto, unfolding(machine::specs::Records::put_assumption, crate::specs::Rows::put_row))]
pub fn put_assumption(w: &mut [u32], u: u32, clause: u32, frame: u32, next: u32)
    ensures { w.new ≡ put_assumption w.old u clause frame next }
{
    put_row(w, u, fields::ASSUMPTION_NODE, &[clause, frame, next]);
}

// A line of the path, and what a member's use adds to it.
#[tactic(auto, unfolding(machine::specs::Records::put_path, crate::specs::Rows::put_row))]
pub fn put_path(w: &mut [u32], u: u32, path: u32, line: u32)
    ensures { w.new ≡ put_path w.old u path line }
{
    put_row(w, u, fields::PATH_BEFORE, &[path, line]);
}

#[tactic(auto, unfolding(machine::specs::Records::put_use, crate::specs::Rows::put_row))]
pub fn put_use(w: &mut [u32], u: u32, place: u32, count: u32, next: u32)
    ensures { w.new ≡ put_use w.old u place count next }
{
    put_row(w, u, fields::USE_PLACE, &[place, count, next]);
}

// A choice point: what is open before it, its goal or atom, its member.
#[tactic(auto, unfolding(machine::specs::Records::put_choice, crate::specs::Rows::put_row))]
pub fn put_choice(w: &mut [u32], u: u32, trail: u32, choice: u32, goals: u32, path: u32, line: u32)
    ensures { w.new ≡ put_choice w.old u trail choice goals path line }
{
    put_row(
        w,
        u,
        fields::CHOICE_TRAIL,
        &[trail, choice, goals, path, line],
    );
}

#[tactic(auto, unfolding(machine::specs::Records::put_chosen, crate::specs::Rows::put_row))]
pub fn put_chosen(w: &mut [u32], u: u32, node: u32, frame: u32, program: u32, level: u32)
    ensures { w.new ≡ put_chosen w.old u node frame program level }
{
    put_row(w, u, fields::CHOICE_NODE, &[node, frame, program, level]);
}

#[tactic(auto, unfolding(machine::specs::Records::put_position, crate::specs::Rows::put_row))]
pub fn put_position(w: &mut [u32], u: u32, hypothesis: u32, clause: u32, member: u32, place: u32)
    ensures { w.new ≡ put_position w.old u hypothesis clause member place }
{
    put_row(
        w,
        u,
        fields::CHOICE_HYPOTHESIS,
        &[hypothesis, clause, member, place],
    );
}

// Pairs that wait in a comparison: node and frame of the goal's side and of the clause's side.
#[tactic(auto, unfolding(machine::specs::Records::put_pairs, crate::specs::Rows::put_row))]
pub fn put_pairs(w: &mut [u32], u: u32, node: u32, frame: u32, node2: u32, frame2: u32, after: u32)
    ensures { w.new ≡ put_pairs w.old u node frame node2 frame2 after }
{
    put_row(
        w,
        u,
        fields::GOAL_SIDE_NODE,
        &[node, frame, node2, frame2, after],
    );
}

// Nodes that wait in a range check.
#[tactic(auto, unfolding(machine::specs::Records::put_nodes, crate::specs::Rows::put_row))]
pub fn put_nodes(w: &mut [u32], u: u32, node: u32, frame: u32, after: u32)
    ensures { w.new ≡ put_nodes w.old u node frame after }
{
    put_row(w, u, fields::WAITING_NODE, &[node, frame, after]);
}
