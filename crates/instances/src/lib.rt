// Comparing instances of sheet terms without unfolding them.
#![tactic(auto)]

mod brief_comparisons;
pub mod frames;
mod instance_ranges;
mod name_classes;

ghost use Rattle.std.specs.Prelude.{◌≡◌, ◌+◌, ◌*◌, ◌/◌, ◌%◌};
ghost use Rattle.scanning.specs.Instances.{same_by_classes};
ghost use Rattle.scanning.specs.BriefComparisons.{same_atoms};
ghost use Rattle.instances.specs.OpenPairs.{level_of, looked, compare_elements, same_applications, Elements};

use brief_comparisons::brief_elements;
use instance_ranges::{CHILD_LIMIT, argument_count};
use memory::{get, put, widen};
use name_classes::{child_of, join_name, root_of};
use node_table::label;
use scanning::class_elements;
use sheet_format::limits;

// The most comparisons that are open at a time (specs/Instances.antt), and the first application of the second side.
const COMPARISON_DEPTH: usize = 2050;

const OTHER_SIDE: u32 = class_elements::FIRST_APPLICATION + 1;

// How deep two atoms are compared without classes.
const BRIEF_DEPTH: u32 = 3;

// The number of elements, as what the first application of a level is multiplied by.
const ELEMENTS: u32 = class_elements::COUNT as u32;

// An instance of a sheet term: a node of the table, with a frame for its names.
#[derive(Clone, Copy)]
pub struct Instance {
    pub node: u32,
    pub frame: u32,
}

// Two elements, with the frames of the two sides.
#[derive(Clone, Copy)]
pub struct Pair {
    pub left: u32,
    pub right: u32,
    pub first: u32,
    pub second: u32,
}

// What a look at two elements finds: whether their terms are the same, or the two applications on whose children that depends, as one
// number (`level_of`).
#[derive(Clone, Copy)]
pub enum Comparison {
    Settled(bool),
    Opens(u32),
}

// Two applications whose children are compared, as one number: a, b and the next child.
fn level_of(a: u32, b: u32) -> u32
    ensures { result ≡ level_of a b }
{
    CHILD_LIMIT * (ELEMENTS * (a % ELEMENTS) + b % ELEMENTS)
}

// Compares two elements but for the children of applications; c has the classes.
fn compare(sheet: &[u8], t: &[u32], text: &[u8], w: &[u32], c: &mut [u32], pair: Pair) -> Comparison
    ensures { looked c.new result ≡ compare_elements sheet.now t.now text.now
        w.now pair.left pair.right c.old pair.first pair.second }
{
    let a = root_of(c, pair.first);
    let b = root_of(c, pair.second);
    if a == b {
        return Comparison::Settled(true);
    }
    if a < class_elements::FIRST_APPLICATION {
        let named = Pair {
            first: a,
            second: b,
            ..pair
        };
        return Comparison::Settled(join_name(sheet, t, text, w, c, named));
    }
    if b < class_elements::FIRST_APPLICATION {
        let named = Pair {
            first: b,
            second: a,
            ..pair
        };
        return Comparison::Settled(join_name(sheet, t, text, w, c, named));
    }
    if label(t, a / 2 % limits::MAX_NODES) == label(t, b / 2 % limits::MAX_NODES) {
        return Comparison::Opens(level_of(a, b));
    }
    Comparison::Settled(false)
}

// Whether the children of two applications of one symbol are the same. The stack has the pairs that are open, whose children are being
// compared; when all of a pair's are, its classes join.
fn same_applications(
    sheet: &[u8],
    t: &[u32],
    text: &[u8],
    w: &[u32],
    c: &mut [u32],
    pair: Pair,
    level: u32,
) -> bool
    requires { Elements c.old × (level % 8 ≡ 0) }
    ensures { result ≡ same_applications sheet.now t.now text.now w.now
        pair.left pair.right c.old (level / 8 / 4096) (level / 8 % 4096) }
{
    let mut stack = [0u32; COMPARISON_DEPTH];
    put(&mut stack, 0, level);
    let mut n: usize = 1;
    // A while: pairs are opened and closed, as on a call stack.
    while 0 < n {
        let top = get(&stack, n - 1);
        let both = top / CHILD_LIMIT;
        let a = both / ELEMENTS;
        let b = both % ELEMENTS;
        let k = top % CHILD_LIMIT;
        if k < argument_count(t, a / 2 % limits::MAX_NODES) {
            if n == COMPARISON_DEPTH {
                return false;
            }
            put(&mut stack, n - 1, top + 1);
            let parts = Pair {
                first: child_of(t, a, k),
                second: child_of(t, b, k),
                ..pair
            };
            match compare(sheet, t, text, w, c, parts) {
                Comparison::Settled(same) => {
                    if !same {
                        return false;
                    }
                }
                Comparison::Opens(next) => {
                    put(&mut stack, n, next);
                    n += 1;
                }
            }
        } else {
            put(c, widen(a), b);
            n -= 1;
        }
    }
    true
}

// The elements of two atoms.
fn atom_pair(left: Instance, right: Instance) -> Pair
    ensures { (result.left ≡ left.frame) × (result.right ≡ right.frame) × (result.first ≡ 2 * (left.node % 1024) + 2048)
        × (result.second ≡ 2 * (right.node % 1024) + 2049) }
{
    Pair {
        left: left.frame,
        right: right.frame,
        first: 2 * (left.node % limits::MAX_NODES) + class_elements::FIRST_APPLICATION,
        second: 2 * (right.node % limits::MAX_NODES) + OTHER_SIDE,
    }
}

// Whether two atoms, instances of the nodes of two atoms, are the same, found by classes.
fn same_by_classes(
    sheet: &[u8],
    t: &[u32],
    text: &[u8],
    w: &[u32],
    left: Instance,
    right: Instance,
) -> bool
    ensures { result ≡ same_by_classes sheet.now t.now text.now w.now left.frame
        right.frame left.node right.node }
{
    let mut c = [0u32; class_elements::COUNT];
    let atoms = atom_pair(left, right);
    match compare(sheet, t, text, w, &mut c, atoms) {
        Comparison::Settled(same) => same,
        Comparison::Opens(level) => same_applications(sheet, t, text, w, &mut c, atoms, level),
    }
}

// The same. Classes take an array of all elements, so they are used only where a brief comparison leaves it undecided.
pub fn same_atoms(
    sheet: &[u8],
    t: &[u32],
    text: &[u8],
    w: &[u32],
    left: Instance,
    right: Instance,
) -> bool
    ensures { result ≡ same_atoms sheet.now t.now text.now w.now left.frame right.frame
        left.node right.node }
{
    let atoms = atom_pair(left, right);
    match brief_elements(BRIEF_DEPTH, sheet, t, text, w, atoms) {
        Some(same) => same,
        None => same_by_classes(sheet, t, text, w, left, right),
    }
}
