// A line of each kind, from the rest after its letter. Each field reading is taken apart by `let .. else` and not by `?`, because
// document 01 names this form.
ghost use Rattle.std.specs.Prelude.{◌≡◌, ℕ};
ghost use Rattle.sheet_format.specs.Bytes.{fields};
ghost use Rattle.sheet_format.specs.SheetLines.{SheetLine, node_line, variable_line, numbers, declaration, one_number};
ghost use Rattle.sheet_format.specs.SheetLines.{with_variable, application};
ghost use Rattle.line_parser.specs.Lines.{line_answer, one_answer, arity_answer, Makes, connective_of, quantifier_of};

use super::lines::{Line, NodeLine, Nodes, one_number, read_nodes, two_numbers};
use outcomes::refusals::Reason;
use sheet_format::limits;

// The arity after a name of n bytes.
fn declared_arity(s: &[u8], function: bool, n: usize) -> Result<Line, Reason>
    ensures { result ≡ arity_answer function n (one_answer (numbers (fields s.now))) }
{
    let Ok(a) = one_number(s) else {
        return Err(Reason::Malformed);
    };
    if limits::MAX_ARITY < a {
        return Err(Reason::Malformed);
    }
    Ok(Line::Declare(function, n, a))
}

// F or P: a name and an arity.
pub fn read_declaration(s: &[u8], function: bool) -> Result<Line, Reason>
    ensures { result ≡ line_answer (declaration function (fields s.now)) }
{
    let name = super::names::read_name(s);
    let Some(n) = super::names::name_of(name) else {
        return Err(Reason::Malformed);
    };
    if s.len() <= n {
        return Err(Reason::Malformed);
    }
    declared_arity(&s[n + 1..], function, n)
}

// V: a variable.
pub fn read_variable(s: &[u8]) -> Result<Line, Reason>
    ensures { result ≡ line_answer (one_number (λ v. node_line (variable_line v)) (with_variable (numbers (fields s.now)))) }
{
    let Ok(v) = one_number(s) else {
        return Err(Reason::Malformed);
    };
    if limits::VARIABLE_NAMES <= v {
        return Err(Reason::Malformed);
    }
    Ok(Line::Node(NodeLine::Variable(v)))
}

// N, C or Q: one number, of which `make` makes the line.
pub fn read_single<F: Fn(u32) -> Line>(s: &[u8], make: F) -> Result<Line, Reason>
    requires { F.IsAlwaysCallable make }
    ensures { (l : ℕ → SheetLine) → Makes l (F.post make) → result ≡ line_answer (one_number l (numbers (fields s.now))) }
{
    let Ok(n) = one_number(s) else {
        return Err(Reason::Malformed);
    };
    Ok(make(n))
}

// & | >: two nodes.
pub fn read_connective(s: &[u8], letter: u8) -> Result<Line, Reason>
    ensures { result ≡ line_answer (connective_of letter (numbers (fields s.now))) }
{
    let Ok((n, m)) = two_numbers(s) else {
        return Err(Reason::Malformed);
    };
    match letter {
        b'&' => Ok(Line::Node(NodeLine::And(n, m))),
        b'|' => Ok(Line::Node(NodeLine::Or(n, m))),
        b'>' => Ok(Line::Node(NodeLine::Implies(n, m))),
        _ => Err(Reason::Malformed),
    }
}

// E U: a variable and a node.
pub fn read_quantifier(s: &[u8], letter: u8) -> Result<Line, Reason>
    ensures { result ≡ line_answer (quantifier_of letter (numbers (fields s.now))) }
{
    let Ok((variable, n)) = two_numbers(s) else {
        return Err(Reason::Malformed);
    };
    if limits::VARIABLE_NAMES <= variable {
        return Err(Reason::Malformed);
    }
    match letter {
        b'E' => Ok(Line::Node(NodeLine::Exists(variable, n))),
        b'U' => Ok(Line::Node(NodeLine::Forall(variable, n))),
        _ => Err(Reason::Malformed),
    }
}

// A: a symbol and its nodes.
pub fn read_application(s: &[u8]) -> Result<Line, Reason>
    ensures { result ≡ line_answer (application (numbers (fields s.now))) }
{
    let Some((f, e)) = super::fields::read_number(s) else {
        return Err(Reason::Malformed);
    };
    let none = Nodes {
        count: 0,
        a: 0,
        b: 0,
        c: 0,
        d: 0,
    };
    if s.len() <= e {
        return Ok(Line::Node(NodeLine::Apply(f, none)));
    }
    read_nodes(&s[e + 1..], f, none)
}
