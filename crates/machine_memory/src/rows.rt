// Fields of a record that stand in a row. A record that lies within the buffer is read and written with one test of bounds, which is the
// same for all its rows. No run meets another one, but the contracts are for every buffer: that is done number by number.
ghost use Rattle.std.specs.Prelude.{◌≡◌, ◌+◌, ◌≤◌, length};
ghost use Rattle.machine_memory.specs.Rows.{row, put_row};

use memory::{RECORD_NUMBERS, get, put, widen};

// The last field of a record.
const LAST: usize = RECORD_NUMBERS - 1;

// The numbers of record u from field f on.
#[inline(always)]
pub fn row<const N: usize>(w: &[u32], u: u32, f: u32) -> [u32; N]
    requires { f + N ≤ 64 }
    ensures { result ≡ row N w.now u f }
{
    let record = RECORD_NUMBERS * widen(u);
    let at = record + widen(f);
    let mut numbers = [0u32; N];
    if record + LAST < w.len() {
        numbers.copy_from_slice(&w[at..at + N]);
        return numbers;
    }
    for i in 0..N {
        numbers[i] = get(w, at + i);
    }
    numbers
}

// Numbers to the fields of record u, the first to field f.
#[inline(always)]
pub fn put_row(w: &mut [u32], u: u32, f: u32, numbers: &[u32])
    requires { f + length numbers.now ≤ 64 }
    ensures { w.new ≡ put_row numbers.now w.old u f }
{
    let record = RECORD_NUMBERS * widen(u);
    let at = record + widen(f);
    if record + LAST < w.len() {
        w[at..at + numbers.len()].copy_from_slice(numbers);
        return;
    }
    for (i, number) in numbers.iter().enumerate() {
        put(w, at + i, *number);
    }
}
