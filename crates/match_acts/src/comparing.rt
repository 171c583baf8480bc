// Comparing a pair of arguments, and following a binding of one of its sides: the goal's side first. Each function is a definition of
// the crate machine, and its contract says so.
ghost use Rattle.std.specs.Prelude.{◌≡◌, ◌<◌};
ghost use Rattle.machine.specs.Matching.{compare_closures, compare_leaves, compare_words, left_word, right_word, compare_sides, compare_pair};
ghost use Rattle.machine_memory.specs.Settling.{settled};

use super::pairs::{due_pairs, pairs_after, pairs_from, word_due};
use machine::{Registers, fields, tags};
use machine_memory::choice_points::fail;
use machine_memory::records::put_pairs;
use machine_memory::registers::{with_check, with_sides};
use machine_memory::words::{binding_of, frame_of, increment, node_of, tag_of};
use node_table::label;

// Two applications: the same symbol or number, then their arguments, then the pairs at e.
#[tactic(auto, using(crate::proofs::Laws::settled_acts), unfolding(machine::specs::Matching::compare_closures))]
pub fn compare_closures(t: &[u32], w: &mut [u32], r: Registers, e: u32, x: u32, y: u32) -> Registers
    ensures { settled w.new result ≡ compare_closures t.now w.old r e x y }
{
    let m = node_of(x);
    let n = node_of(y);
    if label(t, m) != label(t, n) {
        return fail(r);
    }
    let u = r.acts;
    put_pairs(w, u, m, frame_of(x), n, frame_of(y), e);
    due_pairs(w, r, pairs_from(t, w, increment(u), 0))
}

// Goal side a made constant: the same one twice, then the pairs at e.
#[tactic(auto, using(crate::proofs::Laws::settled_acts), unfolding(machine::specs::Matching::compare_leaves))]
pub fn compare_leaves(w: &[u32], r: Registers, e: u32, x: u32, y: u32) -> Registers
    ensures { settled w.now result ≡ compare_leaves w.now r e x y }
{
    if x == y {
        return due_pairs(w, r, e);
    }
    fail(r)
}

// Compares the goal's side x with the clause's side y, both looked through; then the pairs at e are due.
#[tactic(auto, using(crate::proofs::Laws::settled_acts), unfolding(machine::specs::Matching::compare_words))]
pub fn compare_words(t: &[u32], w: &mut [u32], r: Registers, e: u32, x: u32, y: u32) -> Registers
    ensures { settled w.new result ≡ compare_words t.now w.old r e x y }
{
    match (tag_of(x), tag_of(y)) {
        (tags::VARIABLE, _) if x == y => due_pairs(w, r, e),
        (tags::VARIABLE, _) => with_check(r, e, x, y),
        (_, tags::VARIABLE) => with_check(r, e, y, x),
        (tags::CONSTANT, _) => compare_leaves(w, r, e, x, y),
        (_, tags::CONSTANT) => fail(r),
        _ => compare_closures(t, w, r, e, x, y),
    }
}

// The words of the pair that is due: in the registers once a binding of it has been followed, else in its record.
#[tactic(auto, unfolding(machine::specs::Matching::left_word))]
pub fn left_word(t: &[u32], w: &[u32], r: Registers) -> u32
    ensures { result ≡ left_word t.now w.now r }
{
    let followed = (r.left != 0).then_some(r.left);
    word_due(t, w, followed, r.pairs, fields::GOAL_SIDE_NODE)
}

#[tactic(auto, unfolding(machine::specs::Matching::right_word))]
pub fn right_word(t: &[u32], w: &[u32], r: Registers) -> u32
    ensures { result ≡ right_word t.now w.now r }
{
    let followed = (r.left != 0).then_some(r.right);
    word_due(t, w, followed, r.pairs, fields::CLAUSE_SIDE_NODE)
}

// One act on the pair of the words x and y: it follows one binding (request W-206), of the goal's side if there is one, else of the
// clause's side; where neither side is bound, it compares them.
#[tactic(auto, using(crate::proofs::Laws::settled_acts), unfolding(machine::specs::Matching::compare_sides))]
pub fn compare_sides(t: &[u32], w: &mut [u32], r: Registers, x: u32, y: u32) -> Registers
    requires { r.mode < 6 }
    ensures { settled w.new result ≡ compare_sides t.now w.old r x y }
{
    let p = binding_of(w, x);
    if p != 0 {
        return with_sides(r, p, y);
    }
    let q = binding_of(w, y);
    if q != 0 {
        return with_sides(r, x, q);
    }
    let e = pairs_after(t, w, r.pairs);
    compare_words(t, w, r, e, x, y)
}

// One act: the pair that is due.
#[tactic(auto, unfolding(machine::specs::Matching::compare_pair))]
pub fn compare_pair(t: &[u32], w: &mut [u32], r: Registers) -> Registers
    requires { r.mode < 6 }
    ensures { settled w.new result ≡ compare_pair t.now w.old r }
{
    let x = left_word(t, w, r);
    let y = right_word(t, w, r);
    compare_sides(t, w, r, x, y)
}
