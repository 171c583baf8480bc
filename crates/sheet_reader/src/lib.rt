// Reading a sheet: its lines are taken one after the other, to the Q line or the first refusal.
#![tactic(auto)]

pub mod first_line;
pub mod sheet_lines;

ghost use Rattle.std.specs.Prelude.{◌≡◌, ◌≤◌, length};
ghost use Rattle.sheet_format.specs.Limits.{max_sheet_bytes, table_numbers};
ghost use Rattle.sheet_reader.specs.Reader.{finished, ReadContract};

use first_line::read_order;
use outcomes::Refusal;
use outcomes::refusals::Reason;
use sheet_lines::{Taken, line_end, read_at};
use table_builder::node_info::Counts;

// After the Q line, which is the last: nothing follows from `at` on, where line `line` would start.
fn finish(
    sheet: &[u8],
    k: Counts,
    goal: u32,
    at: usize,
    line: u32,
) -> Result<(Counts, u32), Refusal>
    ensures { result ≡ finished sheet.now k goal at line }
{
    if at < sheet.len() {
        return Err(Refusal::new(Reason::NoGoal, line));
    }
    Ok((k, goal))
}

// The sheet in the table: how many symbols, nodes and clauses there are, and the goal's node; or its refusal.
pub fn read_sheet(sheet: &[u8], t: &mut [u32]) -> Result<(Counts, u32), Refusal>
    requires { (length sheet.now ≤ max_sheet_bytes) × (table_numbers ≤ length t.old) }
    ensures { ReadContract sheet.now t.old t.new result }
{
    let mut k = Counts {
        symbols: 0,
        nodes: 0,
        clauses: 0,
    };
    let start = read_order(sheet, t);
    let mut at = start.at;
    let mut line = start.line;
    // A while: a turn goes over a line, not over a byte.
    while at < sheet.len() {
        let end = line_end(sheet, at);
        if end == sheet.len() {
            return Err(Refusal::new(Reason::Malformed, line));
        }
        match read_at(sheet, t, k, at, end) {
            Ok(Taken::Next(more)) => k = more,
            Ok(Taken::Last(goal)) => return finish(sheet, k, goal, end + 1, line + 1),
            Err(reason) => return Err(Refusal::new(reason, line)),
        }
        at = end + 1;
        line += 1;
    }
    Err(Refusal::new(Reason::NoGoal, line))
}
