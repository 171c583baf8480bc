// What a node is, from what its children are: a goal?, how many members as a clause, its free variables. No tree is walked.
ghost use Rattle.std.specs.Prelude.{◌≡◌, ◌<◌, ◌≤◌, eqb};
ghost use Rattle.node_table.specs.Layout.{mask_of, pack_info};
ghost use Rattle.node_table.specs.Chains.{names_over, count_over};
ghost use Rattle.table_builder.specs.Nodes.{node_record, only_bit, without_bit, both_goals, sum_members, supposed_goal, ruled_members, united_mask};
ghost use Rattle.table_builder.specs.Nodes.{and_info, or_info, implies_info, exists_info, forall_info};

use node_table::{
    chain_count, chain_names, goal_bit, is_free, is_goal, kind, kinds, layout, mask, members,
    name_before, one_more,
};
use sheet_format::limits;

// How many symbols, nodes and clauses there are.
#[derive(Clone, Copy)]
pub struct Counts {
    pub symbols: u32,
    pub nodes: u32,
    pub clauses: u32,
}

// The seven numbers of a node: kind + 16 * number of children, label (symbol, number or variable), children, what it is. Of a U node,
// in the place of the second to fourth child: what the U nodes from it on come to.
#[derive(Clone, Copy)]
pub struct NodeRecord {
    pub head: u32,
    pub label: u32,
    pub first: u32,
    pub second: u32,
    pub third: u32,
    pub fourth: u32,
    pub info: u32,
}

impl NodeRecord {
    // A node without children.
    pub fn leaf(head: u32, label: u32, info: u32) -> NodeRecord
        ensures { result ≡ node_record head label 0 0 0 0 info }
    {
        NodeRecord {
            head,
            label,
            first: 0,
            second: 0,
            third: 0,
            fourth: 0,
            info,
        }
    }
}

// A mask, goal bit, members and size as one number.
pub fn pack_info(mask: u32, goal: u32, members: u32, size: u32) -> u32
    requires { (mask < 256) × (goal ≤ 1) × (members < 128) × (size ≤ 1024) }
    ensures { result ≡ pack_info mask goal members size }
{
    mask + (layout::GOAL_UNIT * goal + (layout::MEMBER_UNIT * members + layout::SIZE_UNIT * size))
}

// The mask of variable v alone.
pub fn only_bit(v: u32) -> u32
    requires { v < 8 }
    ensures { (result ≡ only_bit v) × (result < 256) }
{
    1 << v
}

// The mask without variable v. By recursion: v has no bound, and a shift would need one.
fn without_bit(v: u32, mask: u32) -> u32
    ensures { (result ≡ without_bit v mask) × (result ≤ mask) }
{
    if v == 0 {
        return mask / 2 * 2;
    }
    without_bit(v - 1, mask / 2) * 2 + mask % 2
}

// Whether both are goals.
fn both_goals(t: &[u32], a: u32, b: u32) -> bool
    ensures { result ≡ eqb (both_goals t.now a b) 1 }
{
    is_goal(t, a) && is_goal(t, b)
}

// The members of two clauses together, at most 64; 0 if one is no clause.
fn sum_members(m: u32, n: u32) -> u32
    requires { (m < 128) × (n < 128) }
    ensures { (result ≡ sum_members m n) × (result < 128) }
{
    if m == 0 {
        return 0;
    }
    if n == 0 {
        return 0;
    }
    if m + n <= limits::MAX_MEMBERS {
        return m + n;
    }
    0
}

// Whether the first is a clause and the second a goal.
fn supposed_goal(t: &[u32], a: u32, b: u32) -> bool
    ensures { result ≡ eqb (supposed_goal t.now a b) 1 }
{
    members(t, a) != 0 && is_goal(t, b)
}

// One member if the first is a goal and the second an atom.
fn ruled_members(t: &[u32], a: u32, b: u32) -> u32
    ensures { (result ≡ ruled_members t.now a b) × (result ≤ 1) }
{
    u32::from(kind(t, b) == kinds::ATOM && both_goals(t, a, b))
}

fn united_mask(t: &[u32], a: u32, b: u32) -> u32
    ensures { (result ≡ united_mask t.now a b) × (result < 256) }
{
    mask(t, a) | mask(t, b)
}

pub fn and_info(t: &[u32], a: u32, b: u32) -> u32
    ensures { result ≡ and_info t.now a b }
{
    let free = united_mask(t, a, b);
    let goal = u32::from(both_goals(t, a, b));
    let m = sum_members(members(t, a), members(t, b));
    pack_info(free, goal, m, 0)
}

pub fn or_info(t: &[u32], a: u32, b: u32) -> u32
    ensures { result ≡ or_info t.now a b }
{
    let free = united_mask(t, a, b);
    let goal = u32::from(both_goals(t, a, b));
    pack_info(free, goal, 0, 0)
}

pub fn implies_info(t: &[u32], a: u32, b: u32) -> u32
    ensures { result ≡ implies_info t.now a b }
{
    let free = united_mask(t, a, b);
    let goal = u32::from(supposed_goal(t, a, b));
    let m = ruled_members(t, a, b);
    pack_info(free, goal, m, 0)
}

// The mask below E or U, without their variable.
fn bound_mask(t: &[u32], v: u32, a: u32) -> u32
    ensures { (result ≡ without_bit v (mask_of t.now a)) × (result < 256) }
{
    without_bit(v, mask(t, a))
}

pub fn exists_info(t: &[u32], v: u32, a: u32) -> u32
    ensures { result ≡ exists_info t.now v a }
{
    let free = bound_mask(t, v, a);
    pack_info(free, goal_bit(t, a), 0, 0)
}

pub fn forall_info(t: &[u32], v: u32, a: u32) -> u32
    ensures { result ≡ forall_info t.now v a }
{
    let free = bound_mask(t, v, a);
    pack_info(free, goal_bit(t, a), members(t, a), 0)
}

// The names that U nodes in a row bind, the first being U of variable v over node a, which binds v if it stands free there.
pub fn names_over(t: &[u32], v: u32, a: u32) -> u32
    ensures { result ≡ names_over t.now v a }
{
    let names = chain_names(t, a);
    if is_free(t, v, a) {
        return name_before(v, names);
    }
    names
}

// How many they are.
pub fn count_over(t: &[u32], v: u32, a: u32) -> u32
    ensures { result ≡ count_over t.now v a }
{
    let count = chain_count(t, a);
    if is_free(t, v, a) {
        return one_more(count);
    }
    count
}
