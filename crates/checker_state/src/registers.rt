// The registers of the checker: which line is due. Each function is a definition of the crate line_checking, and its contract
// says so.
ghost use Rattle.std.specs.Prelude.{◌≡◌, List, ℕ, ◌-◌};
ghost use Rattle.line_checking.specs.Sequents.{made, start, with_stage, broken, with_binding, with_sequent, with_counts, free_from, bound_from};
ghost use Rattle.line_checking.specs.Sequents.{bound};

use line_checking::{Registers, text_stages};
use node_table::{bit_of, mask};
use sheet_format::limits;

// Before the first line.
pub fn start() -> Registers
    ensures { result ≡ start }
{
    Registers {
        stage: text_stages::OPENING,
        node: 0,
        frame: 0,
        hypotheses: 0,
        level: 0,
        rest: 0,
        made: 0,
        leftover: 0,
    }
}

// What is due.
pub fn with_stage(r: Registers, k: u32) -> Registers
    ensures { result ≡ with_stage r k }
{
    Registers { stage: k, ..r }
}

// The line was wrong.
pub fn broken(r: Registers) -> Registers
    ensures { (w : List ℕ) → made w result ≡ broken w r }
{
    with_stage(r, text_stages::BROKEN)
}

// A B line for variable v is due.
pub fn with_binding(r: Registers, v: u32, f: u32) -> Registers
    ensures { result ≡ with_binding r v f }
{
    Registers {
        stage: text_stages::BINDING,
        node: v,
        frame: f,
        hypotheses: 0,
        level: 0,
        rest: 0,
        ..r
    }
}

// A sequent is due: node, frame, hypotheses, level, and the sequents left after it.
pub fn with_sequent(r: Registers, n: u32, f: u32, h: u32, i: u32, q: u32) -> Registers
    ensures { result ≡ with_sequent r n f h i q }
{
    Registers {
        stage: text_stages::SEQUENT,
        node: n,
        frame: f,
        hypotheses: h,
        level: i,
        rest: q,
        ..r
    }
}

// So many symbols have shown.
pub fn with_counts(r: Registers, m: u32, l: u32) -> Registers
    ensures { result ≡ with_counts r m l }
{
    Registers {
        made: m,
        leftover: l,
        ..r
    }
}

const NAMES: usize = limits::VARIABLE_NAMES as usize;

// The first variable from v on that is in the mask; 8 or more if none is. No Option: `bound_from` takes every number from 8 on as none.
pub fn free_from(mask: u32, v: usize) -> usize
    ensures { result ≡ free_from (8 - v) mask v }
{
    for at in v..NAMES {
        if bit_of(mask, at as u32) == 1 {
            return at;
        }
    }
    v.max(NAMES)
}

// The B line for variable v is due, or the goal where there is none.
pub fn bound_from(goal: u32, r: Registers, v: usize, f: u32) -> Registers
    ensures { result ≡ bound_from goal r v f }
{
    if v < NAMES {
        return with_binding(r, v as u32, f);
    }
    with_sequent(r, goal, f, 0, 0, 0)
}

// The variables before v have their terms in frame f.
pub fn bound(t: &[u32], goal: u32, r: Registers, v: usize, f: u32) -> Registers
    ensures { result ≡ bound t.now goal r v f }
{
    bound_from(goal, r, free_from(mask(t, goal), v), f)
}
