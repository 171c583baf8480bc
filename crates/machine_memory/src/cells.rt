// The cells of the engine's machine on the lent work buffer: variables, slots of frames. Each function is a
// definition of the crate machine, and its contract says so. A read past the buffer's end gives 0, a write there does nothing.
ghost use Rattle.std.specs.Prelude.{◌≡◌, ◌+◌, ◌-◌};
ghost use Rattle.machine.specs.Records.{cell_of, level_of, put_cell, put_level};
ghost use Rattle.memory.specs.Records.{field, put_field};

use machine::fields;
use memory::{RECORD_NUMBERS, field, get, put, put_field, widen};

// The binding and the level of variable x. Each of the four is one call: a function over both would take the first field and be called as often.
#[tactic(auto, unfolding(machine::specs::Records::cell_of))]
pub fn cell_of(w: &[u32], x: u32) -> u32
    ensures { result ≡ cell_of w.now x }
{
    field(w, x / fields::CELLS, x % fields::CELLS)
}

#[tactic(auto, unfolding(machine::specs::Records::level_of))]
pub fn level_of(w: &[u32], x: u32) -> u32
    ensures { result ≡ level_of w.now x }
{
    field(w, x / fields::CELLS, fields::LEVELS + x % fields::CELLS)
}

#[tactic(auto, unfolding(machine::specs::Records::put_cell))]
pub fn put_cell(w: &mut [u32], x: u32, a: u32)
    ensures { w.new ≡ put_cell w.old x a }
{
    put_field(w, x / fields::CELLS, x % fields::CELLS, a);
}

#[tactic(auto, unfolding(machine::specs::Records::put_level))]
pub fn put_level(w: &mut [u32], x: u32, a: u32)
    ensures { w.new ≡ put_level w.old x a }
{
    put_field(w, x / fields::CELLS, fields::LEVELS + x % fields::CELLS, a);
}

// What name v stands for in the frame of record u. The sum is of `usize`: it need not fit a field's number.
#[tactic(auto, unfolding(memory::specs::Records::field))]
pub fn slot(w: &[u32], u: u32, v: u32) -> u32
    ensures { result ≡ field w.now u (23 + v) }
{
    get(w, RECORD_NUMBERS * widen(u) + (fields::FRAME + widen(v)))
}

#[tactic(auto, unfolding(memory::specs::Records::put_field))]
pub fn put_slot(w: &mut [u32], u: u32, v: u32, a: u32)
    ensures { w.new ≡ put_field w.old u (23 + v) a }
{
    put(w, RECORD_NUMBERS * widen(u) + (fields::FRAME + widen(v)), a);
}

// The record of a pointer.
pub fn record_of(p: u32) -> u32
    ensures { result ≡ p - 1 }
{
    p.saturating_sub(1)
}
