// Backtracking to a choice point: the trail is undone to its mark, and the registers are as they were. Each function is a definition of
// the crate machine, and its contract says so.
ghost use Rattle.std.specs.Prelude.{◌≡◌, List, ℕ};
ghost use Rattle.machine.specs.Records.{made};
ghost use Rattle.machine.specs.ChoicePoints.{resume, backtrack, failed};
ghost use Rattle.machine_memory.specs.Settling.{settled};

use super::registers::with_mode;
use super::rows::row;
use super::trail::undo;
use machine::{Registers, fields, modes};
use memory::field;

// Restores what the choice point in record q has: the branch and what was open before it, the goal or atom, the member. Place 0 stands for
// a goal to take.
#[inline(always)]
pub fn resume(w: &[u32], r: Registers, q: u32) -> Registers
    ensures { result ≡ resume w.now r q }
{
    let [
        next,
        trail,
        choice,
        goals,
        path,
        line,
        node,
        frame,
        program,
        level,
        hypothesis,
        clause,
        member,
        place,
    ] = row::<14>(w, q, fields::VARIABLES);
    Registers {
        mode: if place == 0 { modes::TAKE } else { modes::TRY },
        next,
        trail,
        choice,
        goals,
        path,
        line,
        node,
        frame,
        program,
        level,
        hypothesis,
        clause,
        member,
        place,
        ..r
    }
}

// The choice point in record q is taken up, with all bindings and levels as they were.
#[tactic(auto, unfolding(machine::specs::ChoicePoints::backtrack))]
#[inline(always)]
pub fn backtrack(w: &mut [u32], r: Registers, q: u32) -> Registers
    ensures { made w.new result ≡ backtrack w.old r q }
{
    let s = resume(w, r, q);
    let mark = field(w, q, fields::CHOICE_TRAIL);
    let trail = r.trail;
    undo(trail, w, trail, mark);
    s
}

// Failure: the latest choice point, or no.
#[tactic(auto, unfolding(machine::specs::ChoicePoints::failed))]
#[inline(always)]
pub fn failed(w: &mut [u32], r: Registers) -> Registers
    ensures { made w.new result ≡ failed w.old r }
{
    let choice = r.choice;
    if choice == 0 {
        return with_mode(r, modes::NO);
    }
    backtrack(w, r, choice - 1)
}

// A failure, to be settled.
pub fn fail(r: Registers) -> Registers
    ensures { (w : List ℕ) → settled w result ≡ failed w r }
{
    with_mode(r, modes::FAILED)
}

// Goes on with the latest choice point if the registers have failed.
pub fn settle(w: &mut [u32], r: Registers) -> Registers
    ensures { made w.new result ≡ settled w.old r }
{
    if r.mode == modes::FAILED {
        return failed(w, r);
    }
    r
}
