// The members of a clause, found one by one by walking down the clause's nodes in the table: what the engine tries and what the
// checker looks up. It names nothing of either.
#![tactic(auto)]

ghost use Rattle.std.specs.Prelude.{◌≡◌};
ghost use Rattle.clause_members.specs.Members.{found, with_leaf, side_of, chain_at, push_name, push_free, reverse_free, pass_chain};
ghost use Rattle.clause_members.specs.Members.{FoundAs, find_member, member, head_of};

use node_table::{
    below, bit_of, chain_count, chain_names, child, kind, kinds, mask, members, name_before,
    one_more,
};
use sheet_format::limits;

// A member of a clause: its node in the table, and the names of its prefix, outermost first, as digits to base 8, lowest first. On the
// way down: the node that the walk has come to, and the names that the U nodes above it bind.
#[derive(Clone, Copy)]
pub struct Found {
    pub leaf: u32,
    pub names: u32,
    pub count: u32,
}

// A side of an & node, and the number that the member has there.
#[derive(Clone, Copy)]
struct Side {
    node: u32,
    place: u32,
}

// A node, and no names.
fn no_names(n: u32) -> Found
    ensures { result ≡ found n 0 0 }
{
    Found {
        leaf: n,
        names: 0,
        count: 0,
    }
}

// The walk goes on to node n.
#[tactic(auto, unfolding(crate::specs::Members::with_leaf))]
fn with_leaf(m: Found, n: u32) -> Found
    ensures { result ≡ with_leaf m n }
{
    Found { leaf: n, ..m }
}

// Where member k of the & node n is.
#[tactic(auto, unfolding(crate::specs::Members::side_of))]
fn side_of(t: &[u32], n: u32, k: u32) -> Side
    ensures { result ≡ side_of t.now n k }
{
    let first = child(t, n, 0);
    let before = members(t, first);
    if k < before {
        return Side {
            node: first,
            place: k,
        };
    }
    Side {
        node: child(t, n, 1),
        place: k - before,
    }
}

// The U nodes from n on: the node below them, and the names that they bind there.
#[tactic(auto, unfolding(crate::specs::Members::chain_at))]
fn chain_at(t: &[u32], n: u32) -> Found
    ensures { result ≡ chain_at t.now n }
{
    Found {
        leaf: below(t, n),
        names: chain_names(t, n),
        count: chain_count(t, n),
    }
}

// One name more, in front.
#[tactic(auto, unfolding(crate::specs::Members::push_name))]
fn push_name(v: u32, m: Found) -> Found
    ensures { result ≡ push_name v m }
{
    Found {
        names: name_before(v, m.names),
        count: one_more(m.count),
        ..m
    }
}

// One name more in front, if it is in the mask.
#[tactic(auto, unfolding(crate::specs::Members::push_free))]
fn push_free(free: u32, v: u32, m: Found) -> Found
    ensures { result ≡ push_free free v m }
{
    if bit_of(free, v) == 1 {
        return push_name(v, m);
    }
    m
}

// Of the names of m those that are in the mask, in reverse order, in front of those of r.
#[tactic(auto, using(crate::proofs::Laws::reverse_end, crate::proofs::Laws::reverse_on))]
fn reverse_free(free: u32, m: Found, r: Found) -> Found
    ensures { result ≡ reverse_free m.count m.names free r }
{
    let mut front = r;
    let mut names = m.names;
    for _turn in 0..m.count {
        front = push_free(free, names % limits::VARIABLE_NAMES, front);
        names /= limits::VARIABLE_NAMES;
    }
    front
}

// The walk passes the U nodes from its node on. Of the names above them those that stand free there stay, in their order.
#[tactic(auto, using(crate::proofs::Laws::passed_first, crate::proofs::Laws::passed_more))]
fn pass_chain(t: &[u32], m: Found) -> Found
    ensures { result ≡ pass_chain t.now m }
{
    let c = chain_at(t, m.leaf);
    if m.count == 0 {
        return c;
    }
    let free = mask(t, m.leaf);
    let r = reverse_free(free, m, no_names(m.leaf));
    reverse_free(free, r, c)
}

// The same, with the names that the walk has or, where only the leaf is asked for, without.
fn pass<const NAMES: bool>(t: &[u32], m: Found) -> Found
    ensures { FoundAs NAMES result (pass_chain t.now m) }
{
    if NAMES {
        return pass_chain(t, m);
    }
    with_leaf(m, below(t, m.leaf))
}

// Member k of the clause at node n, at most `fuel` nodes deep: U nodes in a row are passed at once, whether they bind anything or not.
#[tactic(auto, using(crate::proofs::Laws::find_end, crate::proofs::Laws::find_side))]
fn find_member<const NAMES: bool>(fuel: u32, t: &[u32], n: u32, k: u32) -> Found
    ensures { FoundAs NAMES result (find_member fuel t.now k (found n 0 0)) }
{
    let mut place = k;
    let mut m = no_names(n);
    for _turn in 0..fuel {
        if kind(t, m.leaf) == kinds::AND {
            let s = side_of(t, m.leaf, place);
            m = with_leaf(m, s.node);
            place = s.place;
            continue;
        }
        m = pass::<NAMES>(t, m);
        if kind(t, m.leaf) != kinds::AND {
            return m;
        }
    }
    m
}

// Member k of the clause at node n. Children have smaller numbers than their node, so no walk is longer than the table. Most clauses
// have one member, which is found without the walk.
#[tactic(auto, using(crate::proofs::Laws::member_only), unfolding(crate::specs::Members::member))]
pub fn member(t: &[u32], n: u32, k: u32) -> Found
    ensures { result ≡ member t.now n k }
{
    let only = chain_at(t, n);
    if kind(t, only.leaf) != kinds::AND {
        return only;
    }
    find_member::<true>(limits::MAX_NODES, t, n, k)
}

// The leaf of member k of the clause at node n: the same walk, without the names.
#[tactic(auto, unfolding(crate::specs::Members::member))]
pub fn member_leaf(t: &[u32], n: u32, k: u32) -> u32
    ensures { result ≡ (member t.now n k).leaf }
{
    find_member::<false>(limits::MAX_NODES, t, n, k).leaf
}

// The node of a member's head; an implication has a body.
#[tactic(auto, unfolding(crate::specs::Members::head_of))]
pub fn head_of(t: &[u32], n: u32) -> u32
    ensures { result ≡ head_of t.now n }
{
    if kind(t, n) == kinds::IMPLIES {
        return child(t, n, 1);
    }
    n
}
