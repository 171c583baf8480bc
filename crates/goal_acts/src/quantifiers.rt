// Taking a goal of the form E or U on the lent work buffer and the registers.
// Each function is a definition of the crate machine, and its contract says so. The two do not become one: what they make differs, a
// variable or a constant, and so do the registers that change.
ghost use Rattle.std.specs.Prelude.{◌≡◌};
ghost use Rattle.machine.specs.Records.{made};
ghost use Rattle.machine.specs.Goals.{take_exists, put_constant, take_forall};

use super::path_lines::extend_path;
use machine::{Registers, fields, lines};
use machine_memory::cells::put_slot;
use machine_memory::frames::{copy_frame, put_fresh};
use machine_memory::registers::{with_goal, with_next};
use machine_memory::words::{constant_word, increment};
use memory::put_field;
use node_table::{child, label};
use sheet_format::limits;

// E: a fresh variable of the goal's level.
#[tactic(auto, unfolding(machine::specs::Goals::take_exists))]
pub fn take_exists(t: &[u32], w: &mut [u32], r: Registers) -> Registers
    ensures { made w.new result ≡ take_exists t.now w.old r }
{
    let act = r.acts;
    copy_frame(limits::VARIABLE_NAMES, w, act, r.frame, 0);
    put_fresh(1, w, act, label(t, r.node), r.next, r.level);
    let s = with_next(extend_path(w, r, lines::SOME), increment(r.next));
    put_field(w, act, fields::VARIABLES, r.next);
    with_goal(s, child(t, r.node, 0), increment(act), r.program, r.level)
}

// The constant of act u, of level i, for name v in the frame of record u.
#[tactic(auto, unfolding(machine::specs::Goals::put_constant))]
pub fn put_constant(w: &mut [u32], u: u32, v: u32, i: u32)
    ensures { w.new ≡ put_constant w.old u v i }
{
    put_field(w, u, fields::CONSTANT_LEVEL, i);
    put_slot(w, u, v, constant_word(u));
}

// U: a fresh made constant, one level above the goal's, and the goal's level rises to that.
#[tactic(auto, unfolding(machine::specs::Goals::take_forall))]
pub fn take_forall(t: &[u32], w: &mut [u32], r: Registers) -> Registers
    ensures { made w.new result ≡ take_forall t.now w.old r }
{
    let act = r.acts;
    let level = increment(r.level);
    copy_frame(limits::VARIABLE_NAMES, w, act, r.frame, 0);
    put_constant(w, act, label(t, r.node), level);
    let s = extend_path(w, r, lines::ALL);
    with_goal(s, child(t, r.node, 0), increment(act), r.program, level)
}
