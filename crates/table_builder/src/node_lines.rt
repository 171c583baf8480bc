// Filling the table: a parsed V, N, Y, &, |, >, E or U line makes a node, a C line a clause, or the line is refused: there is no
// room, a node is not there, it is of the wrong kind, or the clause has a free variable. F, P and A lines: crates symbols and applications.
ghost use Rattle.std.specs.Prelude.{◌≡◌, ◌<◌, ◌≤◌};
ghost use Rattle.sheet_format.specs.Limits.{max_number};
ghost use Rattle.table_builder.specs.Nodes.{made, insert_variable, insert_numeral, insert_true, insert_and, insert_or, insert_implies};
ghost use Rattle.table_builder.specs.Nodes.{insert_exists, insert_forall, insert_clause, check_goal};

use super::node_info::{
    Counts, NodeRecord, and_info, count_over, exists_info, forall_info, implies_info, names_over,
    only_bit, or_info, pack_info,
};
use super::nodes::{add_node, add_one, add_two};
use memory::{put, widen};
use node_table::{below, is_goal, kinds, layout, mask, members};
use outcomes::refusals::Reason;
use sheet_format::limits;

// Inserts the node of a line V v.
pub fn insert_variable(t: &mut [u32], k: Counts, v: u32) -> Result<Counts, Reason>
    requires { v < 8 }
    ensures { made t.new result ≡ insert_variable t.old k v }
{
    if limits::MAX_NODES <= k.nodes {
        return Err(Reason::TooMany);
    }
    let info = pack_info(only_bit(v), 0, 0, 1);
    add_node(t, k, NodeRecord::leaf(kinds::VARIABLE, v, info))
}

// Inserts the node of a line N n: an application without children, of a label that no symbol has.
pub fn insert_numeral(t: &mut [u32], k: Counts, n: u32) -> Result<Counts, Reason>
    requires { n ≤ max_number }
    ensures { made t.new result ≡ insert_numeral t.old k n }
{
    if limits::MAX_NODES <= k.nodes {
        return Err(Reason::TooMany);
    }
    let info = pack_info(0, 0, 0, 1);
    let label = limits::MAX_SYMBOLS + n;
    add_node(t, k, NodeRecord::leaf(kinds::APPLICATION, label, info))
}

// Inserts the node of a line Y.
pub fn insert_true(t: &mut [u32], k: Counts) -> Result<Counts, Reason>
    ensures { made t.new result ≡ insert_true t.old k }
{
    if limits::MAX_NODES <= k.nodes {
        return Err(Reason::TooMany);
    }
    add_node(t, k, NodeRecord::leaf(kinds::TRUE, 0, layout::GOAL_UNIT))
}

// Inserts the node of a line & a b. This line and those of | and > are instances of `add_two`.
pub fn insert_and(t: &mut [u32], k: Counts, a: u32, b: u32) -> Result<Counts, Reason>
    ensures { made t.new result ≡ insert_and t.old k a b }
{
    let info = and_info(t, a, b);
    add_two(t, k, kinds::AND, a, b, info)
}

// Inserts the node of a line | a b.
pub fn insert_or(t: &mut [u32], k: Counts, a: u32, b: u32) -> Result<Counts, Reason>
    ensures { made t.new result ≡ insert_or t.old k a b }
{
    let info = or_info(t, a, b);
    add_two(t, k, kinds::OR, a, b, info)
}

// Inserts the node of a line > a b.
pub fn insert_implies(t: &mut [u32], k: Counts, a: u32, b: u32) -> Result<Counts, Reason>
    ensures { made t.new result ≡ insert_implies t.old k a b }
{
    let info = implies_info(t, a, b);
    add_two(t, k, kinds::IMPLIES, a, b, info)
}

// Inserts the node of a line E v a.
pub fn insert_exists(t: &mut [u32], k: Counts, v: u32, a: u32) -> Result<Counts, Reason>
    ensures { made t.new result ≡ insert_exists t.old k v a }
{
    let info = exists_info(t, v, a);
    let leaf = NodeRecord::leaf(kinds::EXISTS + layout::CHILD_UNIT, v, info);
    add_one(t, k, NodeRecord { first: a, ..leaf })
}

// Inserts the node of a line U v a, with what the U nodes from it on come to.
pub fn insert_forall(t: &mut [u32], k: Counts, v: u32, a: u32) -> Result<Counts, Reason>
    ensures { made t.new result ≡ insert_forall t.old k v a }
{
    let second = below(t, a);
    let third = names_over(t, v, a);
    let fourth = count_over(t, v, a);
    let info = forall_info(t, v, a);
    add_one(
        t,
        k,
        NodeRecord {
            head: kinds::FORALL + layout::CHILD_UNIT,
            label: v,
            first: a,
            second,
            third,
            fourth,
            info,
        },
    )
}

// Inserts the clause of a line C n.
pub fn insert_clause(t: &mut [u32], k: Counts, n: u32) -> Result<Counts, Reason>
    ensures { made t.new result ≡ insert_clause t.old k n }
{
    if limits::MAX_CLAUSES <= k.clauses {
        return Err(Reason::TooMany);
    }
    if k.nodes <= n {
        return Err(Reason::Unknown);
    }
    if members(t, n) == 0 {
        return Err(Reason::WrongKind);
    }
    if mask(t, n) == 0 {
        put(t, layout::FIRST_CLAUSE + widen(k.clauses), n);
        return Ok(Counts {
            clauses: k.clauses + 1,
            ..k
        });
    }
    Err(Reason::FreeVariable)
}

// Checks the goal of a line Q n.
pub fn check_goal(t: &[u32], k: Counts, n: u32) -> Result<u32, Reason>
    ensures { result ≡ check_goal t.now k n }
{
    if k.nodes <= n {
        return Err(Reason::Unknown);
    }
    if is_goal(t, n) {
        return Ok(n);
    }
    Err(Reason::WrongKind)
}
