// The terms of a D line for the prefix of a member. Each function is a definition of the crate line_checking, and its contract
// says so.
ghost use Rattle.std.specs.Prelude.{◌≡◌, ◌<◌, ◌%◌};
ghost use Rattle.line_checking.specs.Clauses.{read, prefix_term, prefix_at, prefix_from};

use checker_state::{CheckInput, Line};
use instances::frames::put_range;
use memory::byte;
use sheet_format::limits;
use term_scanner::scan_term;

// The names of a prefix, `count` digits to base 8, outermost first and lowest first; their terms start at this position and are at most of
// this level.
#[derive(Clone, Copy)]
pub struct Prefix {
    pub names: u32,
    pub count: u32,
    pub level: u32,
    pub at: usize,
}

// The term up to j, of level k, is for the first name: within the line, and not of a higher level.
pub fn prefix_term(
    w: &mut [u32],
    line: Line,
    prefix: Prefix,
    j: usize,
    k: u32,
) -> Option<(usize, u32)>
    requires { prefix.at < 4294967296 }
    ensures { read w.new result ≡ prefix_term w.old line.number (prefix.names % 8) prefix.at j k
        prefix.level line.end }
{
    if j > line.end || k > prefix.level {
        return None;
    }
    let name = prefix.names % limits::VARIABLE_NAMES;
    put_range(w, line.number, name, prefix.at as u32, j as u32);
    Some((j, k))
}

// A tab, then the term for the first name.
pub fn prefix_at(
    input: CheckInput<'_>,
    w: &mut [u32],
    line: Line,
    prefix: Prefix,
) -> Option<(usize, u32)>
    ensures { read w.new result ≡ prefix_at input.entry.sheet.now input.entry.table.now input.entry.shape.symbols
        input.entry.text.now w.old line.number (prefix.names % 8) prefix.at prefix.level line.end }
{
    if byte(input.text, prefix.at) != b'\t' {
        return None;
    }
    let at = prefix.at + 1;
    let (j, k) = scan_term(
        input.text.len(),
        input.sheet,
        input.table,
        input.shape.symbols,
        input.text,
        at,
    )?;
    prefix_term(w, line, Prefix { at, ..prefix }, j, k)
}

// Terms for all its names.
pub fn prefix_from(
    input: CheckInput<'_>,
    w: &mut [u32],
    line: Line,
    prefix: Prefix,
) -> Option<(usize, u32)>
    ensures { read w.new result ≡ prefix_from prefix.count input.entry.sheet.now input.entry.table.now input.entry.shape.symbols
        input.entry.text.now w.old line.number prefix.names prefix.at prefix.level line.end }
{
    let mut rest = prefix;
    for _turn in 0..prefix.count {
        let (j, _) = prefix_at(input, w, line, rest)?;
        rest.at = j;
        rest.names /= limits::VARIABLE_NAMES;
    }
    Some((rest.at, 0))
}
