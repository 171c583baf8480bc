// The parts of a line of a sheet, without its LF: one number, two, and the node numbers of an A line. Each reader takes the rest of
// the line as a part, reads one field by `let .. else`, and hands the rest on: forms that document 01 names, so there is no `?` here, and
// `read_nodes` calls itself in place of a loop.
ghost use Rattle.std.specs.Prelude.{◌≡◌};
ghost use Rattle.std.proofs.Math.Option.{some};
ghost use Rattle.sheet_format.specs.Bytes.{fields};
ghost use Rattle.sheet_format.specs.SheetLines.{numbers, cons_number};
ghost use Rattle.line_parser.specs.Lines.{one_answer, two_answer, push_node, apply_answer};

use outcomes::refusals::Reason;
use sheet_format::limits;

// The node numbers of an A line: how many, and the first four, 0 where there are fewer. Four fields and no array are plainer, because a
// node has one field of the table for each.
#[derive(Clone, Copy)]
pub struct Nodes {
    pub count: u32,
    pub a: u32,
    pub b: u32,
    pub c: u32,
    pub d: u32,
}

// A line that makes a node.
#[derive(Clone, Copy)]
pub enum NodeLine {
    Variable(u32),
    Numeral(u32),
    Apply(u32, Nodes),
    True,
    And(u32, u32),
    Or(u32, u32),
    Implies(u32, u32),
    Exists(u32, u32),
    Forall(u32, u32),
}

#[derive(Clone, Copy)]
pub enum Line {
    // A declaration: whether it is a function symbol, the length of the name, which starts at offset 2, and the arity.
    Declare(bool, usize, u32),
    Node(NodeLine),
    Clause(u32),
    Goal(u32),
}

// The rest of a line as one number; otherwise it is malformed, so that the line is refused.
pub fn one_number(s: &[u8]) -> Result<u32, Reason>
    ensures { result ≡ one_answer (numbers (fields s.now)) }
{
    let Some((n, e)) = super::fields::read_number(s) else {
        return Err(Reason::Malformed);
    };
    if e < s.len() {
        return Err(Reason::Malformed);
    }
    Ok(n)
}

// The number after n, and no further field.
fn second_number(s: &[u8], n: u32) -> Result<(u32, u32), Reason>
    ensures { result ≡ two_answer (cons_number (some n) (numbers (fields s.now))) }
{
    let Ok(m) = one_number(s) else {
        return Err(Reason::Malformed);
    };
    Ok((n, m))
}

// The rest of a line as two numbers.
pub fn two_numbers(s: &[u8]) -> Result<(u32, u32), Reason>
    ensures { result ≡ two_answer (numbers (fields s.now)) }
{
    let Some((n, e)) = super::fields::read_number(s) else {
        return Err(Reason::Malformed);
    };
    if s.len() <= e {
        return Err(Reason::Malformed);
    }
    second_number(&s[e + 1..], n)
}

// One node more.
fn push_node(ns: Nodes, n: u32) -> Nodes
    ensures { result ≡ push_node ns n }
{
    match ns.count {
        0 => Nodes {
            count: 1,
            a: n,
            ..ns
        },
        1 => Nodes {
            count: 2,
            b: n,
            ..ns
        },
        2 => Nodes {
            count: 3,
            c: n,
            ..ns
        },
        _ => Nodes {
            count: 4,
            d: n,
            ..ns
        },
    }
}

// The nodes of an A line from the next one on: a fifth is refused.
pub fn read_nodes(s: &[u8], f: u32, ns: Nodes) -> Result<Line, Reason>
    ensures { result ≡ apply_answer f ns (numbers (fields s.now)) }
{
    let Some((n, e)) = super::fields::read_number(s) else {
        return Err(Reason::Malformed);
    };
    if limits::MAX_ARITY <= ns.count {
        return Err(Reason::Malformed);
    }
    let more = push_node(ns, n);
    if s.len() <= e {
        return Ok(Line::Node(NodeLine::Apply(f, more)));
    }
    read_nodes(&s[e + 1..], f, more)
}
