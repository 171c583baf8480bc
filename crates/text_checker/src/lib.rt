// Judging an answer text line by line: the first line that breaks, or valid. Each function is a definition of the crate
// line_checking, and its contract says so.
#![tactic(auto)]

mod derivation_lines;

ghost use Rattle.std.specs.Prelude.{◌≡◌, List, ℕ, ◌+◌, ◌<◌, ◌≤◌, length};
ghost use Rattle.line_checking.specs.Sequents.{made};
ghost use Rattle.line_checking.specs.Judging.{stage_line, count_line, order_line, judged, end_verdict, judge_text};
ghost use Rattle.numbering_check.specs.LevelCache.{CacheValid};
ghost use Rattle.text_checker.specs.Levels.{ValidUnlessBroken};

use checker_state::registers::{broken, start, with_counts};
use checker_state::{CheckInput, Line, Shape};
use derivation_lines::sequent_line;
use line_checking::{Registers, text_stages};
use line_rules::binding_lines::bind_line;
use line_rules::result_lines::check_result;
use numbering_check::check_numbering;
use term_scanner::ranges::text_line_end;

// How many numbers a text of 65,535 bytes can show, of both kinds together. A showing takes `!` or `_`, the number, `@`, the level and a
// delimiter: 13,780 bytes for the 2,000 numbers of at most three digits, then 8 bytes for each. A level for which there is no room would
// be looked for in the text.
const SHOWN_NUMBERS: usize = 8472;

// A line, by the stage; where no line is due it is a surplus one.
fn stage_line(input: CheckInput<'_>, w: &mut [u32], r: Registers, line: Line) -> Registers
    ensures { made w.new result ≡ stage_line input.entry.sheet.now input.entry.table.now input.entry.shape.symbols input.entry.shape.clauses
        input.entry.shape.goal input.entry.text.now w.old r line.number line.at line.end }
{
    match r.stage {
        text_stages::OPENING => check_result(input.table, input.shape.goal, input.text, r, line),
        text_stages::BINDING => bind_line(input, w, r, line),
        text_stages::SEQUENT => sequent_line(input, w, r, line),
        _ => broken(r),
    }
}

// The symbols in the line are numbered by first showing. The levels of first showings before the line are kept, and then those in it
// too.
fn count_line(text: &[u8], levels: &mut [u16], r: Registers, line: Line) -> Registers
    requires { (line.end ≤ length text.now) × CacheValid text.now levels.old line.at r.made r.leftover }
    ensures { ((w : List ℕ) → made w result ≡ count_line text.now (made w r) line.at line.end)
        × ValidUnlessBroken text.now levels.new line.end result }
{
    match check_numbering(text, levels, line.at, line.end, r.made, r.leftover) {
        Some((m, l)) => with_counts(r, m, l),
        None => broken(r),
    }
}

// Unless the line has broken already.
fn order_line(text: &[u8], levels: &mut [u16], r: Registers, line: Line) -> Registers
    requires { (line.end ≤ length text.now) × CacheValid text.now levels.old line.at r.made r.leftover }
    ensures { ((w : List ℕ) → made w result ≡ order_line text.now (made w r) line.at line.end)
        × ValidUnlessBroken text.now levels.new line.end result }
{
    if r.stage == text_stages::BROKEN {
        return r;
    }
    count_line(text, levels, r, line)
}

// No LF from i on: right if no byte is left and no line is due; otherwise this line breaks.
pub fn end_verdict(text: &[u8], r: Registers, q: u32, i: usize) -> Option<u32>
    requires { q + 1 < 4294967296 }
    ensures { result ≡ end_verdict text.now r q i }
{
    if i == text.len() && r.stage == text_stages::DONE {
        return None;
    }
    Some(q + 1)
}

// The verdict on the whole text: the number of the line that breaks, counted from 1, or none if it is valid. Each line is judged at its
// stage, then by its numbering.
pub fn judge_text(sheet: &[u8], t: &[u32], shape: Shape, text: &[u8], w: &mut [u32]) -> Option<u32>
    requires { length text.now ≤ 65535 }
    ensures { judged w.new result ≡ judge_text sheet.now t.now shape.symbols shape.clauses
        shape.goal text.now w.old }
{
    let input = CheckInput {
        sheet,
        table: t,
        shape,
        text,
    };
    let mut levels = [0u16; SHOWN_NUMBERS];
    let mut r = start();
    let mut q: u32 = 0;
    let mut i: usize = 0;
    let mut e = text_line_end(text, 0);
    // A while: the step is to where the line ends, not one.
    while e < text.len() {
        let line = Line {
            number: q,
            at: i,
            end: e,
        };
        let s = stage_line(input, w, r, line);
        r = order_line(text, &mut levels, s, line);
        let stage = r.stage;
        if stage == text_stages::BROKEN {
            return Some(q + 1);
        }
        q += 1;
        i = e + 1;
        e = text_line_end(text, i);
    }
    end_verdict(text, r, q, i)
}
