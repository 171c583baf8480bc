// The arguments of an A line: whether all are there and terms, and what the node that they make is.
ghost use Rattle.std.specs.Prelude.{◌≡◌, ◌+◌, ◌<◌, ◌≤◌, length};
ghost use Rattle.table_builder.specs.Symbols.{all_there, all_terms, sizes_from, masks_from, term_info, applied_info, application_info};
ghost use Rattle.table_builder.specs.Symbols.{applied_kind};

use super::node_info::pack_info;
use memory::widen;
use node_table::{arity, is_function, kinds, mask, size};
use sheet_format::limits;

// Whether all are numbers of nodes that are there.
pub fn all_there(n: u32, args: &[u32]) -> bool
    ensures { result ≡ all_there n args.now }
{
    args.iter().all(|a| *a < n)
}

// Whether all are terms.
fn all_terms(t: &[u32], args: &[u32]) -> bool
    ensures { result ≡ all_terms t.now args.now }
{
    args.iter().all(|a| size(t, *a) != 0)
}

// One more than the sizes together.
fn sum_sizes(t: &[u32], args: &[u32]) -> u32
    requires { length args.now ≤ 4 }
    ensures { result ≡ sizes_from t.now 1 args.now }
{
    let mut sum: u32 = 1;
    for a in args {
        sum += size(t, *a);
    }
    sum
}

// The masks united.
fn unite_masks(t: &[u32], args: &[u32]) -> u32
    ensures { (result ≡ masks_from t.now 0 args.now) × (result < 256) }
{
    let mut free: u32 = 0;
    for a in args {
        free |= mask(t, *a);
    }
    free
}

// A term of at most 1,024 variables and symbols.
fn term_info(free: u32, size: u32) -> u32
    requires { free < 256 }
    ensures { result ≡ term_info free size }
{
    if size <= limits::MAX_TERM_SIZE {
        return pack_info(free, 0, 0, size);
    }
    0
}

// F applied is a term, P applied a goal and a clause.
fn applied_info(t: &[u32], f: u32, args: &[u32]) -> u32
    requires { length args.now ≤ 4 }
    ensures { result ≡ applied_info t.now f args.now }
{
    let free = unite_masks(t, args);
    if is_function(t, f) {
        return term_info(free, sum_sizes(t, args));
    }
    pack_info(free, 1, 1, 0)
}

// 0, which the table has of a node that is nothing, where the arity does not agree or an argument is no term.
pub fn application_info(t: &[u32], f: u32, args: &[u32]) -> u32
    requires { length args.now ≤ 4 }
    ensures { result ≡ application_info t.now f args.now }
{
    let n = widen(arity(t, f));
    if n != args.len() {
        return 0;
    }
    if all_terms(t, args) {
        return applied_info(t, f, args);
    }
    0
}

pub fn applied_kind(t: &[u32], f: u32) -> u32
    ensures { (result ≡ applied_kind t.now f) × (result ≤ 2) }
{
    if is_function(t, f) {
        return kinds::APPLICATION;
    }
    kinds::ATOM
}
