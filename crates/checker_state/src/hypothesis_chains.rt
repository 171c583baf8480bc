// The chain of a sequent's hypotheses, from the latest to the oldest, with jumps. Each function is a definition of the crate
// line_checking, and its contract says so.
ghost use Rattle.std.specs.Prelude.{◌≡◌};
ghost use Rattle.line_checking.specs.HypothesisChains.{hypothesis_field, even_jumps, links_after, put_links, step_before};

use super::starts::saturate;
use line_checking::Links;
use memory::{field, put_field, widen};
use scanning::fields;

// Field f of the hypothesis that h names, 0 for none.
pub fn hypothesis_field(w: &[u32], h: u32, f: u32) -> u32
    ensures { result ≡ hypothesis_field w.now h f }
{
    if h == 0 {
        return 0;
    }
    field(w, h - 1, f)
}

// Whether the jump of h and the jump after it go equally far.
fn even_jumps(w: &[u32], h: u32) -> bool
    ensures { result ≡ even_jumps w.now h }
{
    let jump = hypothesis_field(w, h, fields::HYPOTHESIS_JUMP);
    let after = hypothesis_field(w, jump, fields::HYPOTHESIS_JUMP);
    let here = widen(hypothesis_field(w, h, fields::HYPOTHESIS_DEPTH));
    let middle = widen(hypothesis_field(w, jump, fields::HYPOTHESIS_DEPTH));
    let end = widen(hypothesis_field(w, after, fields::HYPOTHESIS_DEPTH));
    here + end == 2 * middle
}

// The links of a hypothesis with so many members that is made after h.
pub fn links_after(w: &[u32], h: u32, members: u32) -> Links
    ensures { result ≡ links_after w.now h members }
{
    let depth = saturate(widen(hypothesis_field(w, h, fields::HYPOTHESIS_DEPTH)) + 1);
    if even_jumps(w, h) {
        let jump = hypothesis_field(w, h, fields::HYPOTHESIS_JUMP);
        let first = widen(hypothesis_field(w, h, fields::HYPOTHESIS_PASSED));
        let second = widen(hypothesis_field(w, jump, fields::HYPOTHESIS_PASSED));
        return Links {
            depth,
            jump: hypothesis_field(w, jump, fields::HYPOTHESIS_JUMP),
            passed: saturate(widen(members) + first + second),
        };
    }
    Links {
        depth,
        jump: h,
        passed: saturate(widen(members)),
    }
}

// Writes the links of the hypothesis in record q.
pub fn put_links(w: &mut [u32], q: u32, links: Links)
    ensures { w.new ≡ put_links w.old q links }
{
    put_field(w, q, fields::HYPOTHESIS_DEPTH, links.depth);
    put_field(w, q, fields::HYPOTHESIS_JUMP, links.jump);
    put_field(w, q, fields::HYPOTHESIS_PASSED, links.passed);
}

// One step from the hypothesis h, which starts after k: along the jump if its target starts after k too.
pub fn step_before(w: &[u32], h: u32, k: u32) -> u32
    ensures { result ≡ step_before w.now h k }
{
    let jump = hypothesis_field(w, h, fields::HYPOTHESIS_JUMP);
    if k < hypothesis_field(w, jump, fields::HYPOTHESIS_START) {
        return jump;
    }
    hypothesis_field(w, h, fields::HYPOTHESIS_NEXT)
}
