// The classes of names that stand for one term: their roots, and joining a name to a class (union-find).
ghost use Rattle.std.specs.Prelude.{◌≡◌, ◌+◌, ◌-◌, ◌<◌};
ghost use Rattle.scanning.specs.Classes.{element_of, element_child, side_frame, rooted, root_of};
ghost use Rattle.scanning.specs.Instances.{compared, start_of, end_of, same_name, join_name};

use super::frames::{slot_end, slot_start};
use super::instance_ranges::{Range, is_instance, same_slots};
use super::{Instance, Pair};
use memory::{get, put, widen};
use node_table::{child, kind, kinds, label};
use scanning::class_elements;
use sheet_format::limits;

// The element of node m on side s.
fn element_of(t: &[u32], s: u32, m: u32) -> u32
    requires { s < 2 }
    ensures { result ≡ element_of t.now s m }
{
    if kind(t, m) == kinds::VARIABLE {
        return 2 * (label(t, m) % limits::VARIABLE_NAMES) + (s + class_elements::FIRST_NAME);
    }
    2 * (m % limits::MAX_NODES) + (s + class_elements::FIRST_APPLICATION)
}

// The element of the j-th child of application i.
pub fn child_of(t: &[u32], i: u32, j: u32) -> u32
    ensures { result ≡ element_child t.now i j }
{
    element_of(t, i % 2, child(t, i / 2 % limits::MAX_NODES, j))
}

// The representative of element i; the way to it is halved.
pub fn root_of(c: &mut [u32], i: u32) -> u32
    ensures { rooted c.new result ≡ root_of c.old i }
{
    let mut at = i;
    for _turn in 0..class_elements::ROOT_STEPS {
        let p = get(c, widen(at));
        if p == 0 {
            return at;
        }
        let q = get(c, widen(p));
        if q == 0 {
            return p;
        }
        put(c, widen(at), q);
        at = q;
    }
    at
}

// The frame of side s.
fn side_frame(f: u32, g: u32, s: u32) -> u32
    ensures { result ≡ side_frame f g s }
{
    if s == 0 {
        return f;
    }
    g
}

// The range of name i's term, in its side's frame.
pub fn range_of(w: &[u32], pair: Pair, i: u32) -> Range
    ensures { (result.start ≡ start_of w.now pair.left pair.right i) × (result.end ≡ end_of w.now pair.left pair.right i) }
{
    let frame = side_frame(pair.left, pair.right, i % 2);
    let name = i / 2 % limits::VARIABLE_NAMES;
    Range {
        start: widen(slot_start(w, frame, name)),
        end: widen(slot_end(w, frame, name)),
    }
}

// Whether the first element, a name, has the term of the second.
pub fn same_name(sheet: &[u8], t: &[u32], text: &[u8], w: &[u32], pair: Pair) -> bool
    ensures { result ≡ same_name sheet.now t.now text.now w.now pair.left pair.right
        pair.first pair.second }
{
    let j = pair.second;
    let range = range_of(w, pair, pair.first);
    if j < class_elements::FIRST_APPLICATION {
        let other = range_of(w, pair, j);
        return same_slots(text, range, other);
    }
    let instance = Instance {
        node: j / 2 % limits::MAX_NODES,
        frame: side_frame(pair.left, pair.right, j % 2),
    };
    is_instance(sheet, t, text, w, range, instance)
}

// The same; if so, the name joins the class of the second element.
pub fn join_name(sheet: &[u8], t: &[u32], text: &[u8], w: &[u32], c: &mut [u32], pair: Pair) -> bool
    ensures { compared c.new result ≡ join_name sheet.now t.now text.now w.now
        pair.left pair.right c.old pair.first pair.second }
{
    if same_name(sheet, t, text, w, pair) {
        put(c, widen(pair.first), pair.second);
        return true;
    }
    false
}
