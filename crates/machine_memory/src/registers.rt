// The registers of the engine's machine, by value, with one of them changed. Each function is a definition of the crate machine,
// and its contract says so. Each update has its own function, since definitions and proofs name it.
ghost use Rattle.std.specs.Prelude.{◌≡◌};
ghost use Rattle.machine.specs.Records.{made};
ghost use Rattle.machine.specs.RegisterUpdates.{with_acts, with_mode, with_next, with_trail, with_choice, with_goals, with_path, with_goal};
ghost use Rattle.machine.specs.RegisterUpdates.{with_member, with_pairs, with_sides, with_check, with_due, with_nodes};
ghost use Rattle.machine.specs.ChoicePoints.{save_choice};

use super::rows::put_row;
use machine::{Registers, fields, modes};

// One more act is done.
#[tactic(auto, unfolding(machine::specs::RegisterUpdates::with_acts))]
pub fn with_acts(r: Registers, a: u32) -> Registers
    ensures { result ≡ with_acts r a }
{
    Registers { acts: a, ..r }
}

// The act that is due, or the verdict.
#[tactic(auto, unfolding(machine::specs::RegisterUpdates::with_mode))]
pub fn with_mode(r: Registers, m: u32) -> Registers
    ensures { result ≡ with_mode r m }
{
    Registers { mode: m, ..r }
}

// Variables have been made.
#[tactic(auto, unfolding(machine::specs::RegisterUpdates::with_next))]
pub fn with_next(r: Registers, n: u32) -> Registers
    ensures { result ≡ with_next r n }
{
    Registers { next: n, ..r }
}

// The latest trail entry.
#[tactic(auto, unfolding(machine::specs::RegisterUpdates::with_trail))]
pub fn with_trail(r: Registers, h: u32) -> Registers
    ensures { result ≡ with_trail r h }
{
    Registers { trail: h, ..r }
}

// The latest choice point.
#[tactic(auto, unfolding(machine::specs::RegisterUpdates::with_choice))]
pub fn with_choice(r: Registers, q: u32) -> Registers
    ensures { result ≡ with_choice r q }
{
    Registers { choice: q, ..r }
}

// The goals that wait.
#[tactic(auto, unfolding(machine::specs::RegisterUpdates::with_goals))]
pub fn with_goals(r: Registers, q: u32) -> Registers
    ensures { result ≡ with_goals r q }
{
    Registers { goals: q, ..r }
}

// The latest line of the path.
#[tactic(auto, unfolding(machine::specs::RegisterUpdates::with_path))]
pub fn with_path(r: Registers, p: u32, l: u32) -> Registers
    ensures { result ≡ with_path r p l }
{
    Registers {
        path: p,
        line: l,
        ..r
    }
}

// A goal is due.
#[tactic(auto, unfolding(machine::specs::RegisterUpdates::with_goal))]
pub fn with_goal(r: Registers, n: u32, f: u32, h: u32, i: u32) -> Registers
    ensures { result ≡ with_goal r n f h i }
{
    Registers {
        mode: modes::TAKE,
        node: n,
        frame: f,
        program: h,
        level: i,
        ..r
    }
}

// The member to try.
#[tactic(auto, unfolding(machine::specs::RegisterUpdates::with_member))]
pub fn with_member(r: Registers, h: u32, c: u32, k: u32, p: u32) -> Registers
    ensures { result ≡ with_member r h c k p }
{
    Registers {
        hypothesis: h,
        clause: c,
        member: k,
        place: p,
        ..r
    }
}

// A pair is due, with the words that its record has.
#[tactic(auto, unfolding(machine::specs::RegisterUpdates::with_pairs))]
pub fn with_pairs(r: Registers, a: u32) -> Registers
    ensures { result ≡ with_pairs r a }
{
    Registers {
        mode: modes::COMPARE,
        left: 0,
        pairs: a,
        ..r
    }
}

// A binding of the pair that is due has been followed (request W-206): these are its words now.
#[tactic(auto, unfolding(machine::specs::RegisterUpdates::with_sides))]
pub fn with_sides(r: Registers, x: u32, y: u32) -> Registers
    ensures { result ≡ with_sides r x y }
{
    Registers {
        left: x,
        right: y,
        ..r
    }
}

// A range check is due, of the value v for the variable x; then the pairs a. Its first node is the whole value.
#[tactic(auto, unfolding(machine::specs::RegisterUpdates::with_check))]
pub fn with_check(r: Registers, a: u32, x: u32, v: u32) -> Registers
    ensures { result ≡ with_check r a x v }
{
    Registers {
        mode: modes::CHECK,
        node: v,
        left: x,
        right: v,
        pairs: a,
        nodes: 0,
        ..r
    }
}

// A binding of the node of a range check that is due has been followed (request W-206): this is its word now.
#[tactic(auto, unfolding(machine::specs::RegisterUpdates::with_due))]
pub fn with_due(r: Registers, x: u32) -> Registers
    ensures { result ≡ with_due r x }
{
    Registers { node: x, ..r }
}

// The nodes of a range check that wait, the first of them due.
#[tactic(auto, unfolding(machine::specs::RegisterUpdates::with_nodes))]
pub fn with_nodes(r: Registers, a: u32) -> Registers
    ensures { result ≡ with_nodes r a }
{
    Registers {
        node: 0,
        nodes: a,
        ..r
    }
}

// A choice point in record u: what the registers go on with later.
#[tactic(auto, unfolding(machine::specs::ChoicePoints::save_choice, machine::specs::Records::put_choice, machine::specs::Records::put_chosen, machine::specs::Records::put_position, crate::specs::Rows::put_row))]
#[inline(always)]
pub fn save_choice(w: &mut [u32], u: u32, r: Registers)
    ensures { w.new ≡ save_choice w.old u r }
{
    let saved = [
        r.next,
        r.trail,
        r.choice,
        r.goals,
        r.path,
        r.line,
        r.node,
        r.frame,
        r.program,
        r.level,
        r.hypothesis,
        r.clause,
        r.member,
        r.place,
    ];
    put_row(w, u, fields::VARIABLES, &saved);
}
