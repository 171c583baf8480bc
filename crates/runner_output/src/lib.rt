// What the sheet runner prints for a sheet: document 01, "The sheet runner reads a sheet from standard input ...".
#![tactic(auto)]

ghost use Rattle.std.specs.Prelude.{◌≡◌, take};
ghost use Rattle.line_writer.specs.Appending.{Fits};
ghost use Rattle.runner_output.specs.RunnerOutput.{runner_output, proofs_asked};

use line_parser::lines::one_number;
use line_writer::put_refusal;
use memory::widen;
use outcomes::{Outcome, Request};
use sheet_format::limits;

const UNITS: u32 = 256;

pub const ANSWER_BYTES: usize = 16384;

// Of a longer sheet these first bytes print the same, since both are over 16,384 (specs/Promises.antt: FrontSuffices).
pub const SHEET_BYTES: usize = limits::MAX_SHEET_BYTES + 1;

// The number of proofs that an argument asks for, 0 where it is no number. A number has no tab, so that it is read as the only field of
// a line.
pub fn proofs_asked(argument: &[u8]) -> u32
    ensures { result ≡ proofs_asked argument.now }
{
    one_number(argument).unwrap_or(0)
}

// The answer text is written where the engine writes it, and the line of a refusal in its place.
pub fn runner_output(sheet: &[u8], proofs: u32, out: &mut [u8; ANSWER_BYTES]) -> usize
    ensures fits { Fits result out.new }
    ensures out_after { take result out.new ≡ runner_output sheet.now proofs }
{
    let mut table = [0u32; limits::TABLE_NUMBERS];
    let mut work = [0u32; 16384];
    let ask = Request {
        budget: UNITS,
        proofs,
    };
    let r = engine::run(sheet, ask, &mut table, &mut work, out);
    let length = widen(r.length);
    let outcome = r.outcome;
    if let Outcome::Refused(f) = outcome {
        return put_refusal(out, f.number, f.line);
    }
    length
}
