// Reading a line of a sheet, without its LF: its letter tells its kind. A line that is malformed is refused for that reason, number 6.
#![tactic(auto)]

mod fields;
mod line_kinds;
pub mod lines;
pub mod names;

ghost use Rattle.std.specs.Prelude.{◌≡◌};
ghost use Rattle.sheet_format.specs.Bytes.{fields};
ghost use Rattle.sheet_format.specs.SheetLines.{line_of, parse_line};
ghost use Rattle.line_parser.specs.Lines.{line_answer};

use line_kinds::{
    read_application, read_connective, read_declaration, read_quantifier, read_single,
    read_variable,
};
use lines::{Line, NodeLine};
use outcomes::refusals::Reason;

// The fields after the letter and its tab.
fn read_fields(s: &[u8], letter: u8) -> Result<Line, Reason>
    ensures { result ≡ line_answer (line_of letter (fields s.now)) }
{
    match letter {
        b'F' => read_declaration(s, true),
        b'P' => read_declaration(s, false),
        b'V' => read_variable(s),
        b'N' => read_single(s, |n| Line::Node(NodeLine::Numeral(n))),
        b'A' => read_application(s),
        b'&' | b'|' | b'>' => read_connective(s, letter),
        b'E' | b'U' => read_quantifier(s, letter),
        b'C' => read_single(s, |n| Line::Clause(n)),
        b'Q' => read_single(s, |n| Line::Goal(n)),
        _ => Err(Reason::Malformed), // No other letter begins a line.
    }
}

// A line without its LF.
pub fn read_line(s: &[u8]) -> Result<Line, Reason>
    ensures { result ≡ line_answer (parse_line s.now) }
{
    match s {
        [b'Y'] => Ok(Line::Node(NodeLine::True)),
        [letter, b'\t', rest @ ..] => read_fields(rest, *letter),
        _ => Err(Reason::Malformed),
    }
}
