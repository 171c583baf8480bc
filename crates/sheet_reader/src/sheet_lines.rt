// Taking one line of a sheet: it fills the table, or is refused.
ghost use Rattle.std.specs.Prelude.{◌≡◌, ◌≤◌, length};
ghost use Rattle.sheet_format.specs.Limits.{max_sheet_bytes};
ghost use Rattle.table_builder.specs.Nodes.{made};
ghost use Rattle.sheet_reader.specs.Reader.{line_end, FormedNode, take_node, FormedLine, take_line, line_taken};

use line_parser::lines::{Line, NodeLine};
use line_parser::names::read_name;
use outcomes::refusals::Reason;
use table_builder::applications::insert_application;
use table_builder::node_info::Counts;
use table_builder::node_lines;
use table_builder::symbols::insert_declaration;

// A line is taken: the numbers of symbols, nodes and clauses after it, or, of the Q line, the goal's node.
#[derive(Clone, Copy)]
pub enum Taken {
    Next(Counts),
    Last(u32),
}

// Where the line from `at` on has its LF, or the end of the sheet.
pub fn line_end(s: &[u8], at: usize) -> usize
    ensures { result ≡ line_end s.now at }
{
    for i in at..s.len() {
        if s[i] == b'\n' {
            return i;
        }
    }
    at.max(s.len())
}

// A line that makes a node.
fn take_node(t: &mut [u32], k: Counts, l: NodeLine) -> Result<Counts, Reason>
    requires { FormedNode l }
    ensures { made t.new result ≡ take_node t.old k l }
{
    match l {
        NodeLine::Variable(v) => node_lines::insert_variable(t, k, v),
        NodeLine::Numeral(n) => node_lines::insert_numeral(t, k, n),
        NodeLine::Apply(f, ns) => insert_application(t, k, f, ns),
        NodeLine::True => node_lines::insert_true(t, k),
        NodeLine::And(n, m) => node_lines::insert_and(t, k, n, m),
        NodeLine::Or(n, m) => node_lines::insert_or(t, k, n, m),
        NodeLine::Implies(n, m) => node_lines::insert_implies(t, k, n, m),
        NodeLine::Exists(v, n) => node_lines::insert_exists(t, k, v, n),
        NodeLine::Forall(v, n) => node_lines::insert_forall(t, k, v, n),
    }
}

// The line from `at` up to `end`. A declared name stands two bytes further on; the part that the name reader returns is handed on.
fn take_line(
    sheet: &[u8],
    t: &mut [u32],
    k: Counts,
    at: usize,
    end: usize,
    l: Line,
) -> Result<Taken, Reason>
    requires { (length sheet.now ≤ max_sheet_bytes) × FormedLine sheet.now at end l }
    ensures { made t.new result ≡ take_line sheet.now t.old k at l }
{
    match l {
        Line::Declare(function, _, arity) => {
            let name = read_name(&sheet[at + 2..end]);
            let more = insert_declaration(sheet, t, k, function, at + 2, name, arity)?;
            Ok(Taken::Next(more))
        }
        Line::Node(node) => Ok(Taken::Next(take_node(t, k, node)?)),
        Line::Clause(n) => Ok(Taken::Next(node_lines::insert_clause(t, k, n)?)),
        Line::Goal(n) => Ok(Taken::Last(node_lines::check_goal(t, k, n)?)),
    }
}

// The line from `at` up to `end`.
pub fn read_at(
    sheet: &[u8],
    t: &mut [u32],
    k: Counts,
    at: usize,
    end: usize,
) -> Result<Taken, Reason>
    requires { (length sheet.now ≤ max_sheet_bytes) × (at ≤ end) × (end ≤ length sheet.now) }
    ensures { made t.new result ≡ line_taken sheet.now t.old k at end }
{
    let l = line_parser::read_line(&sheet[at..end])?;
    take_line(sheet, t, k, at, end, l)
}
