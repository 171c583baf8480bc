// The lent table of 8,192 numbers: symbols, nodes, clauses and the order in force, read field by field. A read past the end gives 0.
#![tactic(auto)]

pub mod fingerprints;
pub mod kinds;
pub mod layout;

ghost use Rattle.std.specs.Prelude.{◌≡◌, ◌+◌, ◌*◌, ◌<◌, ◌≤◌, cond, eqb, get_or};
ghost use Rattle.node_table.specs.Layout.{symbol_at, node_at, kind_of, child_count, label_of, child_of, info_of, mask_of, bit_of, goal_bit};
ghost use Rattle.node_table.specs.Layout.{members_of, size_of, name_start, name_word, name_length, is_function_bit, arity_of, clause_node};
ghost use Rattle.node_table.specs.Layout.{forall_kind, order_number};
ghost use Rattle.node_table.specs.Chains.{below_of, chain_names, chain_count, is_free, name_before, one_more};

use memory::{get, widen};
use sheet_format::limits;

// The names of a prefix are digits: so many numbers have eight of them.
const PREFIXES: u32 = 16777216;

// Number f of entry i of a part of the table, which begins at FIRST and has NUMBERS numbers for each entry.
fn field_of<const FIRST: usize, const NUMBERS: usize>(t: &[u32], i: u32, f: usize) -> u32
    requires { (FIRST < 8192) × (NUMBERS < 8) × (f < 8589934592) }
    ensures { result ≡ get_or t.now (FIRST + (NUMBERS * i + f)) 0 }
{
    get(t, FIRST + (NUMBERS * widen(i) + f))
}

// Field f of node n.
fn node_field(t: &[u32], n: u32, f: usize) -> u32
    requires { f < 8589934592 }
    ensures { result ≡ get_or t.now (node_at n f) 0 }
{
    field_of::<{ layout::FIRST_NODE }, { layout::NODE_NUMBERS }>(t, n, f)
}

// Field f of symbol i.
fn symbol_field(t: &[u32], i: u32, f: usize) -> u32
    requires { f < 8589934592 }
    ensures { result ≡ get_or t.now (symbol_at i f) 0 }
{
    field_of::<0, { layout::SYMBOL_NUMBERS }>(t, i, f)
}

// V, F applied, P applied, Y, &, |, >, E or U: one of the module `kinds`.
#[tactic(auto, unfolding(crate::specs::Layout::kind_of))]
pub fn kind(t: &[u32], n: u32) -> u32
    ensures { result ≡ kind_of t.now n }
{
    node_field(t, n, layout::HEAD) % layout::CHILD_UNIT
}

#[tactic(auto, unfolding(crate::specs::Layout::child_count))]
pub fn child_count(t: &[u32], n: u32) -> u32
    ensures { result ≡ child_count t.now n }
{
    node_field(t, n, layout::HEAD) / layout::CHILD_UNIT
}

// The symbol of an application or an atom, the variable of V, E and U.
#[tactic(auto, unfolding(crate::specs::Layout::label_of))]
pub fn label(t: &[u32], n: u32) -> u32
    ensures { result ≡ label_of t.now n }
{
    node_field(t, n, layout::LABEL)
}

#[tactic(auto, unfolding(crate::specs::Layout::child_of))]
pub fn child(t: &[u32], n: u32, j: u32) -> u32
    ensures { result ≡ child_of t.now n j }
{
    node_field(t, n, layout::FIRST_CHILD + widen(j))
}

// What the node is: mask, goal bit, members and size in one number.
#[tactic(auto, unfolding(crate::specs::Layout::info_of))]
pub fn info(t: &[u32], n: u32) -> u32
    ensures { result ≡ info_of t.now n }
{
    node_field(t, n, layout::INFO)
}

// The free variables: variable v is bit v.
#[tactic(auto, unfolding(crate::specs::Layout::mask_of))]
pub fn mask(t: &[u32], n: u32) -> u32
    ensures { (result ≡ mask_of t.now n) × (result < 256) }
{
    info(t, n) % layout::GOAL_UNIT
}

// 1 if it is a goal. A number, since it is the bit of the lent table, which table_builder writes again for the nodes above.
#[tactic(auto, unfolding(crate::specs::Layout::goal_bit))]
pub fn goal_bit(t: &[u32], n: u32) -> u32
    ensures { (result ≡ goal_bit t.now n) × (result ≤ 1) }
{
    info(t, n) / layout::GOAL_UNIT % 2
}

pub fn is_goal(t: &[u32], n: u32) -> bool
    ensures { result ≡ eqb (goal_bit t.now n) 1 }
{
    goal_bit(t, n) == 1
}

// How many members the clause has; 0 if it is none.
#[tactic(auto, unfolding(crate::specs::Layout::members_of))]
pub fn members(t: &[u32], n: u32) -> u32
    ensures { (result ≡ members_of t.now n) × (result < 128) }
{
    info(t, n) / layout::MEMBER_UNIT % 128
}

// How many variables and symbols the term has; 0 if it is none.
#[tactic(auto, unfolding(crate::specs::Layout::size_of))]
pub fn size(t: &[u32], n: u32) -> u32
    ensures { (result ≡ size_of t.now n) × (result < 65536) }
{
    info(t, n) / layout::SIZE_UNIT
}

#[tactic(auto, unfolding(crate::specs::Layout::name_start))]
pub fn name_start(t: &[u32], i: u32) -> u32
    ensures { result ≡ name_start t.now i }
{
    symbol_field(t, i, layout::NAME_START)
}

// The length of the name and its fingerprint in one number.
#[tactic(auto, unfolding(crate::specs::Layout::name_word))]
pub fn name_word(t: &[u32], i: u32) -> u32
    ensures { result ≡ name_word t.now i }
{
    symbol_field(t, i, layout::NAME_WORD)
}

#[tactic(auto, unfolding(crate::specs::Layout::name_length))]
pub fn name_length(t: &[u32], i: u32) -> u32
    ensures { result ≡ name_length t.now i }
{
    name_word(t, i) % layout::FINGERPRINT_UNIT
}

#[tactic(auto, unfolding(crate::specs::Layout::is_function_bit))]
pub fn is_function(t: &[u32], i: u32) -> bool
    ensures { result ≡ eqb (is_function_bit t.now i) 1 }
{
    symbol_field(t, i, layout::ARITY) % 2 == 1
}

#[tactic(auto, unfolding(crate::specs::Layout::arity_of))]
pub fn arity(t: &[u32], i: u32) -> u32
    ensures { result ≡ arity_of t.now i }
{
    symbol_field(t, i, layout::ARITY) / 2
}

#[tactic(auto, unfolding(crate::specs::Layout::clause_node))]
pub fn clause_node(t: &[u32], i: u32) -> u32
    ensures { result ≡ clause_node t.now i }
{
    field_of::<{ layout::FIRST_CLAUSE }, 1>(t, i, 0)
}

// The order in force (request W-207): 0 for the default, 1 for `O latest`.
#[tactic(auto, unfolding(crate::specs::Layout::order_number))]
pub fn order_number(t: &[u32]) -> u32
    ensures { result ≡ order_number t.now }
{
    get(t, layout::ORDER)
}

// Bit v of a mask. By a test, since a shift by 32 is no number and the library has no `checked_shr`.
#[tactic(auto, using(crate::proofs::Bits::bit_shifted, crate::proofs::Bits::bit_high))]
pub fn bit_of(m: u32, v: u32) -> u32
    ensures { result ≡ bit_of m v }
{
    if 32 <= v {
        return 0;
    }
    (m >> v) % 2
}

// Whether variable v stands free in node n.
#[tactic(auto, unfolding(crate::specs::Chains::is_free))]
pub fn is_free(t: &[u32], v: u32, n: u32) -> bool
    ensures { result ≡ is_free t.now v n }
{
    bit_of(mask(t, n), v) == 1
}

// What a U node keeps in the field of child j; `other` for any other node.
fn in_chain(t: &[u32], n: u32, j: u32, other: u32) -> u32
    ensures { result ≡ cond (eqb (kind_of t.now n) forall_kind) (child_of t.now n j) other }
{
    if kind(t, n) == kinds::FORALL {
        return child(t, n, j);
    }
    other
}

// The first node from n down that is no U node.
#[tactic(auto, unfolding(crate::specs::Chains::below_of))]
pub fn below(t: &[u32], n: u32) -> u32
    ensures { result ≡ below_of t.now n }
{
    in_chain(t, n, 1, n)
}

// The names that the U nodes from n down to it bind there, outermost first, as digits to base 8, lowest first.
#[tactic(auto, unfolding(crate::specs::Chains::chain_names))]
pub fn chain_names(t: &[u32], n: u32) -> u32
    ensures { result ≡ chain_names t.now n }
{
    in_chain(t, n, 2, 0)
}

// How many names there are.
#[tactic(auto, unfolding(crate::specs::Chains::chain_count))]
pub fn chain_count(t: &[u32], n: u32) -> u32
    ensures { result ≡ chain_count t.now n }
{
    in_chain(t, n, 3, 0)
}

// The digits of names, with v in front.
#[tactic(auto, unfolding(crate::specs::Chains::name_before))]
pub fn name_before(v: u32, names: u32) -> u32
    ensures { result ≡ name_before v names }
{
    v % limits::VARIABLE_NAMES + limits::VARIABLE_NAMES * (names % PREFIXES)
}

// How many names there are with one more: each stands once, so that there are at most eight.
#[tactic(auto, unfolding(crate::specs::Chains::one_more))]
pub fn one_more(count: u32) -> u32
    ensures { result ≡ one_more count }
{
    count % limits::VARIABLE_NAMES + 1
}
