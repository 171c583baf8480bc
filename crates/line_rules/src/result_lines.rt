// The R line of an answer text. Each function is a definition of the crate line_checking, and its contract says so.
ghost use Rattle.std.specs.Prelude.{◌≡◌, List, ℕ, ◌+◌, ◌<◌, length, cond, Some, None};
ghost use Rattle.line_checking.specs.Sequents.{made};
ghost use Rattle.line_checking.specs.Bindings.{begins_with, is_line, check_result};

use checker_state::Line;
use checker_state::registers::{bound, broken};
use line_checking::Registers;
use sheet_format::limits;
use term_scanner::ranges::same_range;
use term_scanner::tokens::scan_number;

// Whether the text has the bytes a at position i. No slice with `starts_with`: i may lie past the end, where bytes read as 0.
pub fn begins_with(a: &[u8], text: &[u8], i: usize) -> bool
    ensures { result ≡ begins_with a.now text.now i }
{
    same_range(a.len(), a, 0, text, i)
}

// The position after the bytes a, if the text has them at position i.
pub fn after(a: &[u8], text: &[u8], i: usize) -> Option<usize>
    requires { i < 4294967296 }
    ensures { result ≡ cond (begins_with a.now text.now i) (Some (i + length a.now)) None }
{
    if begins_with(a, text, i) {
        return Some(i + a.len());
    }
    None
}

// Whether the line is just the bytes a.
pub(crate) fn is_line(a: &[u8], text: &[u8], line: Line) -> bool
    ensures { result ≡ is_line a.now text.now line.at line.end }
{
    line.end.saturating_sub(line.at) == a.len() && begins_with(a, text, line.at)
}

// The R line: the units are one or more, within the budget.
pub fn check_result(t: &[u32], goal: u32, text: &[u8], r: Registers, line: Line) -> Registers
    ensures { (w : List ℕ) → made w result ≡ check_result t.now goal text.now w r line.at line.end }
{
    let Some(i) = after(b"R\tproved\t", text, line.at) else {
        return broken(r);
    };
    match scan_number(text, i) {
        Some((n, j)) if j == line.end && 1 <= n && n <= limits::MAX_BUDGET => bound(
            t, goal, r, 0, 0,
        ),
        _ => broken(r),
    }
}
