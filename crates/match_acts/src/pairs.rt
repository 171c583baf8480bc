// The lists of matching in the lent work buffer: pairs of arguments to compare, nodes to look at in a range check.
// Each function is a definition of the crate machine, and its contract says so. A position is a number, 0 for none, since records of the
// lent buffer hold it.
ghost use Rattle.std.specs.Prelude.{◌≡◌, ◌-◌, cond, ltb, unwrap_or};
ghost use Rattle.node_table.specs.Layout.{child_count};
ghost use Rattle.machine.specs.Matching.{position_word, pairs_from, nodes_from, argument_word, pairs_after, due_pairs};
ghost use Rattle.memory.specs.Records.{field};

use goal_acts::goals::proceed;
use machine::{Registers, fields};
use machine_memory::cells::record_of;
use machine_memory::registers::with_pairs;
use machine_memory::words::{truncate, word_of};
use memory::{RECORD_NUMBERS, field, get};
use node_table::{child, child_count};
use sheet_format::limits;

const ARGUMENTS: usize = limits::MAX_ARITY as usize;

// The position of argument i in the record of pointer p, in one number.
#[tactic(auto, unfolding(machine::specs::Matching::position_word))]
pub fn position_word(p: u32, i: u32) -> u32
    ensures { result ≡ position_word p i }
{
    truncate(ARGUMENTS * p as usize + i as usize)
}

// The position of argument i of the node in field `node` of the record of pointer p, or what comes after them, which is in field `after`.
fn position_from(t: &[u32], w: &[u32], p: u32, i: u32, node: u32, after: u32) -> u32
    ensures { result ≡ cond (ltb i (child_count t.now (field w.now (p - 1) node))) (position_word p i) (field w.now (p - 1) after) }
{
    let q = record_of(p);
    if i < child_count(t, field(w, q, node)) {
        return position_word(p, i);
    }
    field(w, q, after)
}

// Among the pairs at pointer p.
#[tactic(auto, unfolding(machine::specs::Matching::pairs_from))]
pub fn pairs_from(t: &[u32], w: &[u32], p: u32, i: u32) -> u32
    ensures { result ≡ pairs_from t.now w.now p i }
{
    position_from(t, w, p, i, fields::GOAL_SIDE_NODE, fields::PAIRS_AFTER)
}

// Among the nodes of a range check at pointer p.
#[tactic(auto, unfolding(machine::specs::Matching::nodes_from))]
pub fn nodes_from(t: &[u32], w: &[u32], p: u32, i: u32) -> u32
    ensures { result ≡ nodes_from t.now w.now p i }
{
    position_from(t, w, p, i, fields::WAITING_NODE, fields::WAITING_AFTER)
}

// The word of the argument at position a; its node is in field f of the record, its frame in the next one.
#[tactic(auto, unfolding(machine::specs::Matching::argument_word, memory::specs::Records::field))]
pub fn argument_word(t: &[u32], w: &[u32], a: u32, f: u32) -> u32
    ensures { result ≡ argument_word t.now w.now a f }
{
    let q = record_of(a / limits::MAX_ARITY);
    let at = RECORD_NUMBERS * q as usize + f as usize;
    let node = child(t, get(w, at), a % limits::MAX_ARITY);
    word_of(t, w, node, get(w, at + 1))
}

// The word of the pair or the node that is due: the one in the registers, if there is one, else that of the argument at position a.
pub(crate) fn word_due(t: &[u32], w: &[u32], followed: Option<u32>, a: u32, f: u32) -> u32
    ensures { result ≡ unwrap_or followed (argument_word t.now w.now a f) }
{
    match followed {
        Some(word) => word,
        None => argument_word(t, w, a, f),
    }
}

// The pairs after the one at position a.
#[tactic(auto, unfolding(machine::specs::Matching::pairs_after))]
pub fn pairs_after(t: &[u32], w: &[u32], a: u32) -> u32
    ensures { result ≡ pairs_after t.now w.now a }
{
    pairs_from(t, w, a / limits::MAX_ARITY, a % limits::MAX_ARITY + 1)
}

// The pairs at position a are due; where none is left, the next goal.
#[tactic(auto, unfolding(machine::specs::Matching::due_pairs))]
pub fn due_pairs(w: &[u32], r: Registers, a: u32) -> Registers
    ensures { result ≡ due_pairs w.now r a }
{
    if a == 0 {
        return proceed(w, r);
    }
    with_pairs(r, a)
}
