// Comparing two elements without classes: to a small depth, and names with short terms alone. Most atoms are compared so.
ghost use Rattle.std.specs.Prelude.{◌≡◌};
ghost use Rattle.scanning.specs.BriefComparisons.{brief_name, brief_elements};

use super::Pair;
use super::instance_ranges::argument_count;
use super::name_classes::{child_of, range_of, same_name};
use node_table::label;
use scanning::class_elements;
use sheet_format::limits;

// The longest term of a name that is compared.
const BRIEF_BYTES: usize = 256;

// The first element is a name. What is found is whether the terms are the same, or none where that is not known.
fn brief_name(sheet: &[u8], t: &[u32], text: &[u8], w: &[u32], pair: Pair) -> Option<bool>
    ensures { result ≡ brief_name sheet.now t.now text.now w.now pair.left pair.right
        pair.first pair.second }
{
    let size = range_of(w, pair, pair.first).size();
    if BRIEF_BYTES < size {
        return None;
    }
    Some(same_name(sheet, t, text, w, pair))
}

// Two elements, whose applications are compared to the depth that the rank says.
pub fn brief_elements(
    rank: u32,
    sheet: &[u8],
    t: &[u32],
    text: &[u8],
    w: &[u32],
    pair: Pair,
) -> Option<bool>
    ensures { result ≡ brief_elements rank sheet.now t.now text.now w.now pair.left
        pair.right pair.first pair.second }
{
    if rank == 0 {
        return None;
    }
    let a = pair.first;
    let b = pair.second;
    if a < class_elements::FIRST_APPLICATION {
        return brief_name(sheet, t, text, w, pair);
    }
    if b < class_elements::FIRST_APPLICATION {
        let named = Pair {
            first: b,
            second: a,
            ..pair
        };
        return brief_name(sheet, t, text, w, named);
    }
    if label(t, a / 2 % limits::MAX_NODES) != label(t, b / 2 % limits::MAX_NODES) {
        return Some(false);
    }
    let n = argument_count(t, a / 2 % limits::MAX_NODES);
    for k in 0..n {
        let parts = Pair {
            first: child_of(t, a, k),
            second: child_of(t, b, k),
            ..pair
        };
        let same = brief_elements(rank - 1, sheet, t, text, w, parts)?;
        if !same {
            return Some(false);
        }
    }
    Some(true)
}
