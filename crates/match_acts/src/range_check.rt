// A range check, one node of the term at a time, and following a binding of a node. Each function is a definition of the crate machine,
// and its contract says so. That the registers have not failed is a clause here and in comparing: a type for such registers would be no
// plainer, since each act would have to make it anew from the registers that it goes on with.
ghost use Rattle.std.specs.Prelude.{◌≡◌, ◌<◌};
ghost use Rattle.machine.specs.Matching.{visit_closure, visit_word, due_word, nodes_after, check_word, check_node};
ghost use Rattle.machine_memory.specs.Settling.{settled};
ghost use Rattle.match_acts.specs.Visits.{passed};

use super::occurs_check::{Visit, pass_node, visit_constant, visit_variable};
use super::pairs::{nodes_from, word_due};
use machine::{Registers, fields, tags};
use machine_memory::choice_points::fail;
use machine_memory::records::put_nodes;
use machine_memory::registers::with_due;
use machine_memory::words::{binding_of, frame_of, increment, node_of, tag_of};
use sheet_format::limits;

// The node is an application: its arguments are looked at, then the nodes at e.
#[tactic(auto, unfolding(machine::specs::Matching::visit_closure, crate::specs::Visits::passed))]
pub fn visit_closure(t: &[u32], w: &mut [u32], r: Registers, e: u32, x: u32) -> Visit
    ensures { passed w.new r result ≡ visit_closure t.now w.old r e x }
{
    let u = r.acts;
    put_nodes(w, u, node_of(x), frame_of(x), e);
    Some((0, 0, nodes_from(t, w, increment(u), 0)))
}

// By what the node is, looked through; then the nodes at e.
#[tactic(auto, unfolding(machine::specs::Matching::visit_word))]
pub fn visit_word(t: &[u32], w: &mut [u32], r: Registers, e: u32, x: u32) -> Visit
    ensures { passed w.new r result ≡ visit_word t.now w.old r e x }
{
    match tag_of(x) {
        tags::VARIABLE => visit_variable(w, r, e, x),
        tags::CONSTANT => visit_constant(w, r, e, x),
        _ => visit_closure(t, w, r, e, x),
    }
}

// The word of the node that is due: in a register where it is the whole value or a binding of it has been followed, else in its record.
#[tactic(auto, unfolding(machine::specs::Matching::due_word))]
pub fn due_word(t: &[u32], w: &[u32], r: Registers) -> u32
    ensures { result ≡ due_word t.now w.now r }
{
    let followed = (r.node != 0).then_some(r.node);
    word_due(t, w, followed, r.nodes, fields::WAITING_NODE)
}

// The nodes after the one at position a. Unlike `pairs_after` it has a case more: none comes after the whole value, whose position is 0.
#[tactic(auto, unfolding(machine::specs::Matching::nodes_after))]
pub fn nodes_after(t: &[u32], w: &[u32], a: u32) -> u32
    ensures { result ≡ nodes_after t.now w.now a }
{
    if a == 0 {
        return 0;
    }
    nodes_from(t, w, a / limits::MAX_ARITY, a % limits::MAX_ARITY + 1)
}

// One act on the node of the word x: it follows one binding (request W-206), or looks at the node where it is not bound.
#[tactic(auto, using(crate::proofs::Laws::settled_acts), unfolding(machine::specs::Matching::check_word, crate::specs::Visits::passed))]
pub fn check_word(t: &[u32], w: &mut [u32], r: Registers, x: u32) -> Registers
    requires { r.mode < 6 }
    ensures { settled w.new result ≡ check_word t.now w.old r x }
{
    let p = binding_of(w, x);
    if p != 0 {
        return with_due(r, p);
    }
    let e = nodes_after(t, w, r.nodes);
    let Some((z, k, rest)) = visit_word(t, w, r, e, x) else {
        return fail(r);
    };
    pass_node(w, r, z, k, rest)
}

// One act: the node of a range check that is due.
#[tactic(auto, unfolding(machine::specs::Matching::check_node))]
pub fn check_node(t: &[u32], w: &mut [u32], r: Registers) -> Registers
    requires { r.mode < 6 }
    ensures { settled w.new result ≡ check_node t.now w.old r }
{
    let x = due_word(t, w, r);
    check_word(t, w, r, x)
}
