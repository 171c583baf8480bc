// What the answer checker prints for a sheet and an answer text.
#![tactic(auto)]

ghost use Rattle.std.specs.Prelude.{◌≤◌, ◌≡◌, length, take};
ghost use Rattle.line_writer.specs.Appending.{Fits};
ghost use Rattle.line_writer.specs.RefusalLine.{refusal_line_bytes};
ghost use Rattle.checker_output.specs.CheckerOutput.{invalid_line, verdict_output, checker_output};

use line_writer::{put_byte, put_bytes, put_number, put_refusal};
use outcomes::Verdict;
use sheet_format::limits;

// The longest line is that of a refusal.
pub const LINE_BYTES: usize = 24;

// Of longer files these first bytes print the same, since refusal 1 or 4 arises from both (specs/Promises.antt: FrontsSuffice).
pub const SHEET_BYTES: usize = limits::MAX_SHEET_BYTES + 1;

pub const TEXT_BYTES: usize = limits::MAX_TEXT_BYTES as usize + 1;

// As many as a stack of 8 MB lets stand beside the program's other buffers and 64 KB for the checker. A valid text has fewer: its
// shortest lines have six bytes.
const LINES: usize = 31000;

#[tactic(auto, using(line_writer::proofs::Laws::decimal_length))]
fn put_invalid(out: &mut [u8], line: u32) -> usize
    requires { refusal_line_bytes ≤ length out.old }
    ensures { (result ≤ refusal_line_bytes) × (take result out.new ≡ invalid_line line) }
{
    let mut to = put_bytes(out, 0, b"not valid\t");
    to = put_number(out, to, line);
    put_byte(out, to, b'\n')
}

fn put_verdict(v: Verdict, out: &mut [u8; LINE_BYTES]) -> usize
    ensures { Fits result out.new × (take result out.new ≡ verdict_output v) }
{
    match v {
        Verdict::Valid => put_bytes(out, 0, b"valid\n"),
        Verdict::Invalid(line) => put_invalid(out, line),
        Verdict::Refused(f) => put_refusal(out, f.number, f.line),
    }
}

pub fn checker_output(sheet: &[u8], text: &[u8], out: &mut [u8; LINE_BYTES]) -> usize
    ensures fits { Fits result out.new }
    ensures out_after { take result out.new ≡ checker_output sheet.now text.now }
{
    let mut table = [0u32; limits::TABLE_NUMBERS];
    let mut work = [0u32; limits::NUMBERS_PER_UNIT * LINES];
    let v = checker::check(sheet, text, &mut table, &mut work);
    put_verdict(v, out)
}
