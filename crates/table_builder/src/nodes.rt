// A node into the table, unless it is one too many, a child is not there, or it is neither term, goal nor clause.
ghost use Rattle.std.specs.Prelude.{◌≡◌, ◌<◌};
ghost use Rattle.sheet_format.specs.Limits.{max_nodes};
ghost use Rattle.table_builder.specs.Nodes.{made, node_written, add_node, add_two, add_one};

use super::node_info::{Counts, NodeRecord};
use memory::{put, widen};
use node_table::{kind, layout};
use outcomes::refusals::Reason;
use sheet_format::limits;

// What two children add to the head of a node.
const TWO_CHILDREN: u32 = 2 * layout::CHILD_UNIT;

fn write_node(t: &mut [u32], n: u32, r: NodeRecord)
    ensures { t.new ≡ node_written t.old n r }
{
    let at = layout::FIRST_NODE + layout::NODE_NUMBERS * widen(n);
    put(t, at + layout::HEAD, r.head);
    put(t, at + layout::LABEL, r.label);
    put(t, at + layout::FIRST_CHILD, r.first);
    put(t, at + layout::SECOND_CHILD, r.second);
    put(t, at + layout::THIRD_CHILD, r.third);
    put(t, at + layout::FOURTH_CHILD, r.fourth);
    put(t, at + layout::INFO, r.info);
}

// The next node, if it is a term, a goal or a clause.
pub fn add_node(t: &mut [u32], k: Counts, r: NodeRecord) -> Result<Counts, Reason>
    requires { k.nodes < max_nodes }
    ensures { made t.new result ≡ add_node t.old k r }
{
    if r.info / layout::GOAL_UNIT == 0 {
        return Err(Reason::WrongKind);
    }
    write_node(t, k.nodes, r);
    Ok(Counts {
        nodes: k.nodes + 1,
        ..k
    })
}

// A node of that kind with two children.
pub fn add_two(
    t: &mut [u32],
    k: Counts,
    kind: u32,
    a: u32,
    b: u32,
    info: u32,
) -> Result<Counts, Reason>
    requires { kind < 16 }
    ensures { made t.new result ≡ add_two t.old k kind a b info }
{
    if limits::MAX_NODES <= k.nodes {
        return Err(Reason::TooMany);
    }
    if k.nodes <= a {
        return Err(Reason::Unknown);
    }
    if k.nodes <= b {
        return Err(Reason::Unknown);
    }
    let leaf = NodeRecord::leaf(kind + TWO_CHILDREN, 0, info);
    add_node(
        t,
        k,
        NodeRecord {
            first: a,
            second: b,
            ..leaf
        },
    )
}

// A node with one child.
pub fn add_one(t: &mut [u32], k: Counts, r: NodeRecord) -> Result<Counts, Reason>
    ensures { made t.new result ≡ add_one t.old k r }
{
    if limits::MAX_NODES <= k.nodes {
        return Err(Reason::TooMany);
    }
    if k.nodes <= r.first {
        return Err(Reason::Unknown);
    }
    add_node(t, k, r)
}
