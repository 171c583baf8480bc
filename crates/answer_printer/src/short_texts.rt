// The texts of no and spent, in two passes. Each function is a definition of the crate printing, and its contract says so.
ghost use Rattle.std.specs.Prelude.{◌≡◌, ◌<◌, ◌≤◌};
ghost use Rattle.printing.specs.Output.{written};
ghost use Rattle.printing.specs.Writer.{text_limit, fitted, append_result, write_short, write_no, write_spent};

use super::Room;
use sheet_format::limits;
use term_printer::output::{emit, write_bytes, write_number};

pub const MAX_BYTES: usize = limits::MAX_TEXT_BYTES as usize;

// The most bytes that fit.
pub fn text_limit(out: &[u8]) -> u32
    ensures { (result ≡ text_limit out.now) × (result ≤ 65535) }
{
    out.len().min(MAX_BYTES) as u32
}

// The R line of no or spent, written after what `own` holds already: bs are the bytes before the units.
pub fn append_result(bs: &[u8], units: u32, own: &mut [u8], room: Room) -> u32
    ensures { written own.new result ≡ append_result bs.now units own.old room.limit room.at }
{
    let mut to = write_bytes(bs, own, room.limit, room.at);
    to = write_number(own, room.limit, to, units);
    emit(own, room.limit, to, b'\n')
}

pub fn write_short(bs: &[u8], units: u32, out: &mut [u8]) -> Option<u32>
    ensures { fitted out.new result ≡ write_short bs.now units out.old }
{
    let limit = text_limit(out);
    let room = Room { limit, at: 0 };
    let length = append_result(bs, units, &mut out[..0], room);
    if limit < length {
        return None;
    }
    Some(append_result(bs, units, out, room))
}

pub fn write_no(units: u32, out: &mut [u8]) -> Option<u32>
    ensures { fitted out.new result ≡ write_no units out.old }
{
    write_short(b"R\tno\t", units, out)
}

pub fn write_spent(budget: u32, out: &mut [u8]) -> Option<u32>
    ensures { fitted out.new result ≡ write_spent budget out.old }
{
    write_short(b"R\tspent\t", budget, out)
}
