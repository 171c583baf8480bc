// The frames in the records of the checker's work buffer.
ghost use Rattle.std.specs.Prelude.{◌≡◌, ◌+◌, ◌*◌, ◌<◌};
ghost use Rattle.scanning.specs.Frames.{slot_start, slot_end, put_range, copy_ranges, bind_frame};

use memory::{field, get, put, put_field, widen};
use scanning::fields;
use sheet_format::limits::NUMBERS_PER_UNIT;

// Where the number for the start of name v's term in frame r is; that for its end follows.
fn slot_place(r: u32, v: u32) -> usize
    ensures { (result ≡ 64 * r + 2 * v) × (result < 1099511627776) }
{
    NUMBERS_PER_UNIT * widen(r) + 2 * widen(v)
}

// Where the term of name v in frame r starts and ends.
pub fn slot_start(w: &[u32], r: u32, v: u32) -> u32
    ensures { result ≡ slot_start w.now r v }
{
    get(w, slot_place(r, v))
}

pub fn slot_end(w: &[u32], r: u32, v: u32) -> u32
    ensures { result ≡ slot_end w.now r v }
{
    get(w, slot_place(r, v) + 1)
}

// The term of name v in frame r is the one from s to e.
pub fn put_range(w: &mut [u32], r: u32, v: u32, s: u32, e: u32)
    ensures { w.new ≡ put_range w.old r v s e }
{
    let place = slot_place(r, v);
    put(w, place, s);
    put(w, place + 1, e);
}

// Copies n numbers of frame q, from field f on, to record r.
pub fn copy_ranges(n: u32, w: &mut [u32], r: u32, q: u32, f: u32)
    requires { f + n < 4294967296 }
    ensures { w.new ≡ copy_ranges n w.old r q f }
{
    for at in f..f + n {
        let a = field(w, q, at);
        put_field(w, r, at, a);
    }
}

// The frame of record r is frame q with another term for name v.
pub fn bind_frame(w: &mut [u32], r: u32, q: u32, v: u32, s: u32, e: u32)
    ensures { w.new ≡ bind_frame w.old r q v s e }
{
    copy_ranges(fields::FRAME_NUMBERS, w, r, q, 0);
    put_range(w, r, v, s, e);
}
