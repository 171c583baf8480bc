// A D line, by the goal of the sequent that is due. Each function is a definition of the crate line_checking, and its contract
// says so.
ghost use Rattle.std.specs.Prelude.{◌≡◌};
ghost use Rattle.line_checking.specs.Sequents.{made};
ghost use Rattle.line_checking.specs.Judging.{quantifier_line, connective_line, sequent_line};

use checker_state::{CheckInput, Line};
use line_checking::Registers;
use line_rules::clause_rules::clause_line;
use line_rules::connective_rules::{and_line, assume_line, or_line, true_line};
use line_rules::quantifier_rules::{all_line, some_line};
use node_table::{kind, kinds};

// The goal is E or U.
pub fn quantifier_line(input: CheckInput<'_>, w: &mut [u32], r: Registers, line: Line) -> Registers
    ensures { made w.new result ≡ quantifier_line input.entry.sheet.now input.entry.table.now input.entry.shape.symbols
        input.entry.text.now w.old r line.number line.at line.end }
{
    if kind(input.table, r.node) == kinds::EXISTS {
        return some_line(input, w, r, line);
    }
    all_line(input.table, input.text, w, r, line)
}

// The goal is no atom and not Y.
pub fn connective_line(input: CheckInput<'_>, w: &mut [u32], r: Registers, line: Line) -> Registers
    ensures { made w.new result ≡ connective_line input.entry.sheet.now input.entry.table.now input.entry.shape.symbols input.entry.shape.clauses
        input.entry.text.now w.old r line.number line.at line.end }
{
    let sort = kind(input.table, r.node);
    if sort == kinds::AND {
        return and_line(input.table, input.text, w, r, line);
    }
    if sort == kinds::OR {
        return or_line(input.table, input.text, r, line);
    }
    if sort == kinds::IMPLIES {
        return assume_line(input.table, input.shape.clauses, input.text, w, r, line);
    }
    quantifier_line(input, w, r, line)
}

// A D line, by the kind of the goal that is due.
pub fn sequent_line(input: CheckInput<'_>, w: &mut [u32], r: Registers, line: Line) -> Registers
    ensures { made w.new result ≡ sequent_line input.entry.sheet.now input.entry.table.now input.entry.shape.symbols input.entry.shape.clauses
        input.entry.text.now w.old r line.number line.at line.end }
{
    let sort = kind(input.table, r.node);
    if sort == kinds::ATOM {
        return clause_line(input, w, r, line);
    }
    if sort == kinds::TRUE {
        return true_line(input.text, w, r, line);
    }
    connective_line(input, w, r, line)
}
