// The walk in the lent work buffer: one act, and at most so many acts. Each function is a definition of the crate machine, and
// its contract says so. Table, number of clauses, buffer and registers are parameters of their own: most functions below take two or three
// of them, and some only read the buffer, so a struct of all would be no plainer.
#![tactic(auto)]

ghost use Rattle.std.specs.Prelude.{ℕ, ◌≤◌, ◌<◌, ◌≡◌};
ghost use Rattle.machine.specs.Records.{made};
ghost use Rattle.machine.specs.Machine.{act, run_acts, start_memory, start_registers, run_machine};
ghost use Rattle.machine_memory.specs.Settling.{settled};

use clause_acts::backchaining::try_next;
use goal_acts::take_goal;
use machine::{Registers, modes};
use machine_memory::choice_points::settle;
use machine_memory::frames::put_variables;
use machine_memory::registers::with_acts;
use machine_memory::words::increment;
use match_acts::comparing::compare_pair;
use match_acts::range_check::check_node;
use sheet_format::limits;

// One act, counted: a goal is taken or a member tried. Apart from `match_act`, so that each act has one call in the loop below.
#[tactic(auto, using(crate::proofs::Laws::act_counted), unfolding(machine::specs::Machine::due_act))]
fn goal_act(t: &[u32], c: u32, w: &mut [u32], r: Registers) -> Registers
    requires { r.mode ≤ 1 }
    ensures { settled w.new result ≡ act t.now c w.old r }
{
    let u = increment(r.acts);
    if r.mode == modes::TAKE {
        return with_acts(take_goal(t, c, w, r), u);
    }
    with_acts(try_next(t, c, w, r), u)
}

// One act, counted: of an argument pair, or of a node in a range check. It does not depend on the number of clauses.
#[tactic(auto, using(crate::proofs::Laws::act_counted), unfolding(machine::specs::Machine::due_act))]
fn match_act(t: &[u32], w: &mut [u32], r: Registers) -> Registers
    requires { (1 < r.mode) × (r.mode ≤ 3) }
    ensures { (c : ℕ) → settled w.new result ≡ act t.now c w.old r }
{
    let u = increment(r.acts);
    if r.mode == modes::COMPARE {
        return with_acts(compare_pair(t, w, r), u);
    }
    with_acts(check_node(t, w, r), u)
}

// At most n acts, each of which takes one of the units left. Members are tried in turn: the inner loop compares the argument pairs of
// a member, and the first mismatch leaves them for the next member; then the outer loop takes a goal or tries a member. Each act has
// one call here, and failure is settled in one place, so that they are compiled in place. The state between two acts is in the work
// buffer and the registers alone.
#[tactic(auto, using(crate::proofs::Laws::turns))]
pub fn run_acts(n: u32, t: &[u32], c: u32, w: &mut [u32], from: Registers) -> Registers
    ensures { made w.new result ≡ run_acts n t.now c w.old from }
{
    if modes::CHECK < from.mode {
        return from;
    }
    let mut r = from;
    let mut left = n;
    'members: loop {
        r = settle(w, r);
        while modes::TRY < r.mode {
            if modes::CHECK < r.mode {
                return r;
            }
            if left == 0 {
                return r;
            }
            r = match_act(t, w, r);
            left -= 1; // a pair compared, a node looked at or a binding followed
            // A mismatch: the next member is due.
            if r.mode == modes::FAILED {
                continue 'members;
            }
        }
        if left == 0 {
            return r;
        }
        r = goal_act(t, c, w, r);
        left -= 1; // a goal taken or a member tried
    }
}

// The start: the eight variables of the goal's names are made, the goal is due.
#[tactic(auto, unfolding(machine::specs::Machine::start_memory))]
pub fn start_memory(w: &mut [u32])
    ensures { w.new ≡ start_memory w.old }
{
    put_variables(limits::VARIABLE_NAMES, w, 0);
}

#[tactic(auto, unfolding(machine::specs::Machine::start_registers))]
pub fn start_registers(goal: u32) -> Registers
    ensures { result ≡ start_registers goal }
{
    Registers {
        acts: 0,
        mode: modes::TAKE,
        next: limits::VARIABLE_NAMES,
        trail: 0,
        choice: 0,
        goals: 0,
        path: 0,
        line: 0,
        node: goal,
        frame: 0,
        program: 0,
        level: 0,
        hypothesis: 0,
        clause: 0,
        member: 0,
        place: 0,
        left: 0,
        right: 0,
        pairs: 0,
        nodes: 0,
    }
}

// From the start, within a budget.
#[tactic(auto, unfolding(machine::specs::Machine::run_machine))]
pub fn run_machine(budget: u32, t: &[u32], c: u32, goal: u32, w: &mut [u32]) -> Registers
    ensures { made w.new result ≡ run_machine budget t.now c goal w.old }
{
    start_memory(w);
    run_acts(budget, t, c, w, start_registers(goal))
}
