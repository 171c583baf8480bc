// The words of the engine's machine, which stand for terms: a variable, a constant, or a node in a frame; what they are bound to.
// Each function is a definition of the crate machine, and its contract says so.
ghost use Rattle.std.specs.Prelude.{◌≡◌, ◌+◌, ◌-◌};
ghost use Rattle.machine.specs.Words.{truncate, increment, variable_word, constant_word, closure_word, tag_of, name_of, node_of, frame_of, slot_of};
ghost use Rattle.machine.specs.Words.{word_of, binding_of};

use super::cells::{cell_of, slot};
use machine::tags;
use memory::widen;
use node_table::{kind, kinds, label};
use sheet_format::limits;

// The tags, their number and the number of nodes as addends and factors of words.
pub const TAGS: usize = tags::COUNT as usize;

pub const VARIABLE_TAG: usize = tags::VARIABLE as usize;

const CONSTANT_TAG: usize = tags::CONSTANT as usize;

const CLOSURE_TAG: usize = tags::CLOSURE as usize;

const NODES: usize = limits::MAX_NODES as usize;

// A number kept in 32 bits, and the number after it. A remainder, since `as` takes only a number that fits.
#[tactic(auto, unfolding(machine::specs::Words::truncate))]
pub fn truncate(a: usize) -> u32
    ensures { result ≡ truncate a }
{
    (a % 4294967296) as u32
}

#[tactic(auto, unfolding(machine::specs::Words::increment, machine::specs::Words::truncate))]
pub fn increment(a: u32) -> u32
    ensures { result ≡ increment a }
{
    a.wrapping_add(1)
}

// Packed words.
#[tactic(auto, unfolding(machine::specs::Words::variable_word))]
pub fn variable_word(x: u32) -> u32
    ensures { result ≡ variable_word x }
{
    truncate(TAGS * widen(x) + VARIABLE_TAG)
}

#[tactic(auto, unfolding(machine::specs::Words::constant_word))]
pub fn constant_word(c: u32) -> u32
    ensures { result ≡ constant_word c }
{
    truncate(TAGS * widen(c) + CONSTANT_TAG)
}

#[tactic(auto, unfolding(machine::specs::Words::closure_word))]
pub fn closure_word(n: u32, f: u32) -> u32
    ensures { result ≡ closure_word n f }
{
    truncate(TAGS * (NODES * widen(f) + widen(n)) + CLOSURE_TAG)
}

// The parts of a word: its tag says whether it is a variable, a made constant or a closure.
#[tactic(auto, unfolding(machine::specs::Words::tag_of))]
pub fn tag_of(a: u32) -> u32
    ensures { result ≡ tag_of a }
{
    a % tags::COUNT
}

#[tactic(auto, unfolding(machine::specs::Words::name_of))]
pub fn name_of(a: u32) -> u32
    ensures { result ≡ name_of a }
{
    a / tags::COUNT
}

#[tactic(auto, unfolding(machine::specs::Words::node_of))]
pub fn node_of(a: u32) -> u32
    ensures { result ≡ node_of a }
{
    a / tags::COUNT % limits::MAX_NODES
}

#[tactic(auto, unfolding(machine::specs::Words::frame_of))]
pub fn frame_of(a: u32) -> u32
    ensures { result ≡ frame_of a }
{
    a / tags::COUNT / limits::MAX_NODES
}

// What name v stands for in frame f; frame 0 is the first environment.
#[tactic(auto, unfolding(machine::specs::Words::slot_of))]
pub fn slot_of(w: &[u32], f: u32, v: u32) -> u32
    ensures { result ≡ slot_of w.now f v }
{
    if f == 0 {
        return variable_word(v);
    }
    slot(w, f - 1, v)
}

// The word of a term's node n in frame f.
#[tactic(auto, unfolding(machine::specs::Words::word_of))]
pub fn word_of(t: &[u32], w: &[u32], n: u32, f: u32) -> u32
    ensures { result ≡ word_of t.now w.now n f }
{
    if kind(t, n) == kinds::VARIABLE {
        return slot_of(w, f, label(t, n));
    }
    closure_word(n, f)
}

// What a word is bound to; 0 where it is no variable, or an unbound one. The walk follows one binding an act (request W-206).
#[tactic(auto, unfolding(machine::specs::Words::binding_of))]
pub fn binding_of(w: &[u32], a: u32) -> u32
    ensures { result ≡ binding_of w.now a }
{
    if tag_of(a) != tags::VARIABLE {
        return 0;
    }
    cell_of(w, name_of(a))
}
