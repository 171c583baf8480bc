// The trail: bindings and lowered levels are noted, and undone. Each function is a definition of the crate machine, and its
// contract says so.
ghost use Rattle.std.specs.Prelude.{◌≡◌, ◌<◌};
ghost use Rattle.machine.specs.Trail.{lower_to, bind_to, old_level, effect, undo_entry, undo};

use super::cells::{level_of, put_cell, put_level, record_of};
use super::records::put_entry;
use super::words::name_of;
use machine::fields;
use memory::field;

// Three functions of a variable by its word, 0 for no variable: one function that takes what is done as a closure would be no shorter.
#[tactic(auto, unfolding(machine::specs::Trail::lower_to))]
pub fn lower_to(w: &mut [u32], a: u32, k: u32)
    ensures { w.new ≡ lower_to w.old a k }
{
    if a != 0 {
        put_level(w, name_of(a), k);
    }
}

#[tactic(auto, unfolding(machine::specs::Trail::bind_to))]
pub fn bind_to(w: &mut [u32], a: u32, v: u32)
    ensures { w.new ≡ bind_to w.old a v }
{
    if a != 0 {
        put_cell(w, name_of(a), v);
    }
}

#[tactic(auto, unfolding(machine::specs::Trail::old_level))]
pub fn old_level(w: &[u32], a: u32) -> u32
    ensures { result ≡ old_level w.now a }
{
    if a == 0 {
        return 0;
    }
    level_of(w, name_of(a))
}

// Lowers z to k and binds y to v, with a trail entry in record u.
#[tactic(auto, unfolding(machine::specs::Trail::effect))]
pub fn effect(w: &mut [u32], u: u32, z: u32, k: u32, y: u32, v: u32, before: u32)
    ensures { w.new ≡ effect w.old u z k y v before }
{
    let level = old_level(w, z);
    lower_to(w, z, k);
    bind_to(w, y, v);
    put_entry(w, u, z, level, y, before);
}

// Undoes the trail entry in record q.
#[tactic(auto, unfolding(machine::specs::Trail::undo_entry))]
pub fn undo_entry(w: &mut [u32], q: u32)
    ensures { w.new ≡ undo_entry w.old q }
{
    let lowered = field(w, q, fields::ENTRY_LOWERED);
    let level = field(w, q, fields::ENTRY_LEVEL);
    let bound = field(w, q, fields::ENTRY_BOUND);
    bind_to(w, bound, 0);
    lower_to(w, lowered, level);
}

// Undoes the trail from h down to the mark, at most n entries.
pub fn undo(n: u32, w: &mut [u32], h: u32, mark: u32)
    ensures { w.new ≡ undo n w.old h mark }
{
    let mut at = h;
    for _entry in 0..n {
        if at == mark {
            return;
        }
        let q = record_of(at);
        let before = field(w, q, fields::ENTRY_BEFORE);
        undo_entry(w, q);
        at = before;
    }
}
