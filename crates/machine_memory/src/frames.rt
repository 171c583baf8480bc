// Frames: a copy, and fresh variables for names. Each function is a definition of the crate machine, and its contract says so.
ghost use Rattle.std.specs.Prelude.{◌≡◌, ◌+◌, ◌<◌};
ghost use Rattle.machine.specs.Frames.{copy_frame, put_variable, put_fresh, put_variables};

use super::cells::{put_cell, put_level, put_slot};
use super::words::{increment, slot_of, variable_word};
use sheet_format::limits;

// Copies n names of frame f, from v on, to record u.
pub fn copy_frame(n: u32, w: &mut [u32], u: u32, f: u32, v: u32)
    requires { v + n < 4294967296 }
    ensures { w.new ≡ copy_frame n w.old u f v }
{
    for at in v..v + n {
        let a = slot_of(w, f, at);
        put_slot(w, u, at, a);
    }
}

// Makes variable x, unbound and of level i.
#[tactic(auto, unfolding(machine::specs::Frames::put_variable))]
pub fn put_variable(w: &mut [u32], x: u32, i: u32)
    ensures { w.new ≡ put_variable w.old x i }
{
    put_cell(w, x, 0);
    put_level(w, x, i);
}

// Makes variables of level i, from x on, for the n names that are the digits of vs, in the frame of record u.
pub fn put_fresh(n: u32, w: &mut [u32], u: u32, vs: u32, x: u32, i: u32)
    ensures { w.new ≡ put_fresh n w.old u vs x i }
{
    let mut names = vs;
    let mut fresh = x;
    for _turn in 0..n {
        put_variable(w, fresh, i);
        put_slot(w, u, names % limits::VARIABLE_NAMES, variable_word(fresh));
        names /= limits::VARIABLE_NAMES;
        fresh = increment(fresh);
    }
}

// Makes n variables of level 0, from x on.
pub fn put_variables(n: u32, w: &mut [u32], x: u32)
    requires { x + n < 4294967296 }
    ensures { w.new ≡ put_variables n w.old x }
{
    for fresh in x..x + n {
        put_variable(w, fresh, 0);
    }
}
