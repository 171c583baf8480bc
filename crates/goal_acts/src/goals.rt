// The goal that is due, and goals that have no goal in them: true, and an atom, whose members are tried next.
// Each function is a definition of the crate machine, and its contract says so.
ghost use Rattle.std.specs.Prelude.{◌≡◌, List, ℕ};
ghost use Rattle.machine.specs.Records.{made};
ghost use Rattle.machine.specs.Goals.{due_goal, proceed, members_left, try_from, take_atom, take_true};
ghost use Rattle.machine_memory.specs.Settling.{settled};

use super::path_lines::extend_path;
use super::trying_order::first_member;
use machine::{Registers, fields, lines, modes};
use machine_memory::choice_points::fail;
use machine_memory::registers::{with_goal, with_goals, with_mode};
use memory::field;

// The goal that waits in record q is due.
#[tactic(auto, unfolding(machine::specs::Goals::due_goal))]
pub fn due_goal(w: &[u32], r: Registers, q: u32) -> Registers
    ensures { result ≡ due_goal w.now r q }
{
    let s = with_goals(r, field(w, q, fields::GOAL_NEXT));
    let node = field(w, q, fields::GOAL_NODE);
    let frame = field(w, q, fields::GOAL_FRAME);
    let program = field(w, q, fields::GOAL_PROGRAM);
    let level = field(w, q, fields::GOAL_LEVEL);
    with_goal(s, node, frame, program, level)
}

// The front goal is due; where none waits, all is proved.
#[tactic(auto, unfolding(machine::specs::Goals::proceed))]
pub fn proceed(w: &[u32], r: Registers) -> Registers
    ensures { result ≡ proceed w.now r }
{
    if r.goals == 0 {
        return with_mode(r, modes::PROVED);
    }
    due_goal(w, r, r.goals - 1)
}

// Whether there is a member that the registers name; c is the number of the sheet's clauses.
#[tactic(auto, unfolding(machine::specs::Goals::members_left))]
pub fn members_left(c: u32, r: Registers) -> bool
    ensures { result ≡ members_left c r }
{
    r.hypothesis != 0 || r.clause < c
}

// That member is due.
#[tactic(auto, unfolding(machine::specs::Goals::try_from, machine_memory::specs::Settling::settled, machine::specs::RegisterUpdates::with_mode))]
pub fn try_from(c: u32, r: Registers) -> Registers
    ensures { (w : List ℕ) → settled w result ≡ try_from c w r }
{
    if members_left(c, r) {
        return with_mode(r, modes::TRY);
    }
    fail(r)
}

// An atom: members in turn.
#[tactic(auto, unfolding(machine::specs::Goals::take_atom))]
pub fn take_atom(t: &[u32], c: u32, w: &[u32], r: Registers) -> Registers
    ensures { settled w.now result ≡ take_atom t.now c w.now r }
{
    try_from(c, first_member(t, c, w, r))
}

// Y: nothing.
#[tactic(auto, unfolding(machine::specs::Goals::take_true))]
pub fn take_true(w: &mut [u32], r: Registers) -> Registers
    ensures { made w.new result ≡ take_true w.old r }
{
    let s = extend_path(w, r, lines::TRUE);
    proceed(w, s)
}
