// What a try writes: the members left as the alternative, the body as the next goal. Each function is a definition of the crate
// machine, and its contract says so.
ghost use Rattle.std.specs.Prelude.{◌≡◌, cond};
ghost use Rattle.machine.specs.Words.{increment};
ghost use Rattle.machine.specs.Backchaining.{save_alternative, put_body, put_try, tried};

use clause_members::Found;
use goal_acts::goals::members_left;
use machine::{Registers, lines};
use machine_memory::records::{put_goal, put_path, put_use};
use machine_memory::registers::{save_choice, with_choice, with_goals, with_next, with_path};
use machine_memory::words::{increment, truncate};
use node_table::{child, kind, kinds};

// The members left, from s on, are the alternative.
#[tactic(auto, unfolding(machine::specs::Backchaining::save_alternative))]
pub fn save_alternative(c: u32, w: &mut [u32], u: u32, s: Registers)
    ensures { w.new ≡ save_alternative c w.old u s }
{
    if members_left(c, s) {
        save_choice(w, u, s);
    }
}

// The body, if any, is the new goal; n is the node of the member.
#[tactic(auto, unfolding(machine::specs::Backchaining::put_body))]
pub fn put_body(t: &[u32], w: &mut [u32], r: Registers, n: u32)
    ensures { w.new ≡ put_body t.now w.old r n }
{
    let u = r.acts;
    if kind(t, n) == kinds::IMPLIES {
        let body = child(t, n, 0);
        put_goal(w, u, body, increment(u), r.program, r.level, r.goals);
    }
}

// The path, the alternative and the body of a try; s is at the next member.
#[tactic(auto, unfolding(machine::specs::Backchaining::put_try))]
pub fn put_try(t: &[u32], c: u32, w: &mut [u32], r: Registers, m: Found, s: Registers)
    ensures { w.new ≡ put_try t.now c w.old r m s }
{
    let u = r.acts;
    put_path(w, u, r.path, r.line);
    put_use(w, u, r.place, m.count, r.next);
    save_alternative(c, w, u, s);
    put_body(t, w, r, m.leaf);
}

// The latest of its kind after a try: this act's, if it has one, else the one before.
fn latest(here: bool, r: Registers, before: u32) -> u32
    ensures { result ≡ cond here (increment r.acts) before }
{
    if here {
        return increment(r.acts);
    }
    before
}

// The registers after a try.
#[tactic(auto, unfolding(machine::specs::Backchaining::tried))]
pub fn tried(t: &[u32], c: u32, r: Registers, m: Found, s: Registers) -> Registers
    ensures { result ≡ tried t.now c r m s }
{
    let choice = latest(members_left(c, s), r, r.choice);
    let goals = latest(kind(t, m.leaf) == kinds::IMPLIES, r, r.goals);
    let next = truncate(r.next as usize + m.count as usize);
    let a = with_next(with_path(r, increment(r.acts), lines::CLAUSE), next);
    with_goals(with_choice(a, choice), goals)
}
