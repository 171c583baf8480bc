// The sequents that are left to derive, in the lent work buffer. Each function is a definition of the crate line_checking, and
// its contract says so.
ghost use Rattle.std.specs.Prelude.{◌≡◌, ◌-◌};
ghost use Rattle.line_checking.specs.Sequents.{put_sequent, open_sequent, next_sequent, put_hypothesis};

use super::registers::{with_sequent, with_stage};
use line_checking::{Registers, text_stages};
use memory::{field, put_field};
use scanning::fields;

// A sequent left, in record q.
pub fn put_sequent(
    w: &mut [u32],
    q: u32,
    node: u32,
    frame: u32,
    hypotheses: u32,
    level: u32,
    next: u32,
)
    ensures { w.new ≡ put_sequent w.old q node frame hypotheses level next }
{
    put_field(w, q, fields::SEQUENT_NODE, node);
    put_field(w, q, fields::SEQUENT_FRAME, frame);
    put_field(w, q, fields::SEQUENT_HYPOTHESES, hypotheses);
    put_field(w, q, fields::SEQUENT_LEVEL, level);
    put_field(w, q, fields::SEQUENT_NEXT, next);
}

// It is due.
pub fn open_sequent(w: &[u32], r: Registers, q: u32) -> Registers
    ensures { result ≡ open_sequent w.now r q }
{
    let node = field(w, q, fields::SEQUENT_NODE);
    let frame = field(w, q, fields::SEQUENT_FRAME);
    let hypotheses = field(w, q, fields::SEQUENT_HYPOTHESES);
    let level = field(w, q, fields::SEQUENT_LEVEL);
    let next = field(w, q, fields::SEQUENT_NEXT);
    with_sequent(r, node, frame, hypotheses, level, next)
}

// The next of the sequents left is due, if there is one.
pub fn next_sequent(w: &[u32], r: Registers) -> Registers
    ensures { result ≡ next_sequent w.now r }
{
    let rest = r.rest;
    if rest == 0 {
        return with_stage(r, text_stages::DONE);
    }
    open_sequent(w, r, rest - 1)
}

// A hypothesis, in record q, with its start (request W-207).
pub fn put_hypothesis(w: &mut [u32], q: u32, node: u32, frame: u32, next: u32, start: u32)
    ensures { w.new ≡ put_hypothesis w.old q node frame next start }
{
    put_field(w, q, fields::HYPOTHESIS_NODE, node);
    put_field(w, q, fields::HYPOTHESIS_FRAME, frame);
    put_field(w, q, fields::HYPOTHESIS_NEXT, next);
    put_field(w, q, fields::HYPOTHESIS_START, start);
}
