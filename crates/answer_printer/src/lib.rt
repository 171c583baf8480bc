// The answer printer: texts of proofs, written one after another into bytes of its own, and copied into the answer buffer where
// they fit.
// Each function is a definition of the crate printing, and its contract says so.
#![tactic(auto)]

mod binding_lines;
mod clause_lines;
mod line_parts;
mod path_lines;
pub mod short_texts;

ghost use Rattle.std.specs.Prelude.{◌≡◌, List, ◌++◌, ℕ, ◌<◌, ◌≤◌, length, take, drop};
ghost use Rattle.machine.specs.Records.{made};
ghost use Rattle.printing.specs.Numbering.{printer};
ghost use Rattle.printing.specs.PathLinks.{linked};
ghost use Rattle.printing.specs.Writer.{proof_pass, prepare, first_link, answered, fitted, append_proof, copied, write_proof};

use binding_lines::bindings_to;
use line_parts::result_to;
use machine::Registers;
use memory::widen;
use node_table::mask;
use path_lines::lines_to;
use printing::Cursor;
use short_texts::{MAX_BYTES, text_limit};
use term_printer::path_links::link_path;
use term_printer::{Bounds, Source};

// The most bytes that may be written, and how many are.
#[derive(Clone, Copy)]
pub struct Room {
    pub limit: u32,
    pub at: u32,
}

// A search: the node of its goal, and its units.
#[derive(Clone, Copy)]
pub struct Search {
    pub goal: u32,
    pub units: u32,
}

// A proved search, and the link to the first line of its path.
#[derive(Clone, Copy)]
pub struct Proved {
    pub search: Search,
    pub path: u32,
}

// The text of a proved search.
pub fn proof_pass(
    source: &Source<'_>,
    bounds: Bounds,
    proved: Proved,
    w: &mut [u32],
    out: &mut [u8],
    p: Cursor,
) -> Cursor
    requires { bounds.limit ≤ 65535 }
    ensures { printer w.new out.new result ≡ proof_pass source.now.sheet.now source.now.table.now bounds.turns
        bounds.limit proved.search.goal proved.search.units proved.path (printer w.old out.old p) }
{
    let bits = mask(source.table, proved.search.goal);
    let mut q = result_to(bounds.limit, out, p, b"R\tproved\t", proved.search.units);
    q = bindings_to(source, bounds, bits, w, out, q);
    lines_to(source, bounds, w, out, q, proved.path)
}

// Links the path in the order taken; the result is the link to the first line.
pub fn prepare(w: &mut [u32], r: Registers) -> u32
    ensures { linked w.new result ≡ linked (prepare (made w.old r)) (first_link (made w.old r)) }
{
    link_path(r.acts, w, r.path, r.line, 0)
}

// The text of a proved search, written after what `own` holds already and numbered from 0; the result is where it ends.
fn append_text(
    source: &Source<'_>,
    search: Search,
    w: &mut [u32],
    r: Registers,
    own: &mut [u8],
    room: Room,
) -> u32
    requires { room.limit ≤ 65535 }
    ensures { answered w.new own.new result ≡ append_proof source.now.sheet.now source.now.table.now search.goal
        (made w.old r) search.units room.limit own.old room.at }
{
    let path = prepare(w, r);
    let bounds = Bounds {
        turns: r.acts,
        limit: room.limit,
    };
    let proved = Proved { search, path };
    let p = Cursor {
        at: room.at,
        variables: 0,
        constants: 0,
    };
    let g = proof_pass(source, bounds, proved, w, own, p);
    g.at
}

// The text of a proof that the machine has just found, after those of the proofs before it.
pub fn append_proof(
    sheet: &[u8],
    t: &[u32],
    goal: u32,
    w: &mut [u32],
    r: Registers,
    own: &mut [u8],
    room: Room,
) -> u32
    requires { room.limit ≤ 65535 }
    ensures { answered w.new own.new result ≡ append_proof sheet.now t.now goal
        (made w.old r) r.acts room.limit own.old room.at }
{
    let units = r.acts;
    append_text(
        &Source { sheet, table: t },
        Search { goal, units },
        w,
        r,
        own,
        room,
    )
}

// The bytes of `own` that were written, copied once they are known to fit, and their number; none where they do not fit.
pub fn copy_out(own: &[u8], room: Room, out: &mut [u8]) -> Option<u32>
    requires { (room.limit ≤ length own.now) × (room.limit ≤ length out.old) }
    ensures { fitted out.new result ≡ copied room.limit own.now room.at out.old }
{
    if room.limit < room.at {
        return None;
    }
    let n = widen(room.at);
    out[..n].copy_from_slice(&own[..n]);
    Some(room.at)
}

// The answer of a proved search, and its length; none where it does not fit.
pub fn write_proof(
    sheet: &[u8],
    t: &[u32],
    goal: u32,
    w: &mut [u32],
    r: Registers,
    units: u32,
    out: &mut [u8],
) -> Option<u32>
    ensures { answered w.new out.new result ≡ write_proof sheet.now t.now goal
        (made w.old r) units out.old }
{
    let limit = text_limit(out);
    let search = Search { goal, units };
    let room = Room { limit, at: 0 };
    let mut own = [0u8; MAX_BYTES];
    let at = append_text(&Source { sheet, table: t }, search, w, r, &mut own, room);
    copy_out(&own, Room { limit, at }, out)
}
