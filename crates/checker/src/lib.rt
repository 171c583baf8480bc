// The checker: a sheet is read and a text is judged line by line, in buffers that the caller lends (document 01).
#![tactic(auto)]

ghost use Rattle.std.specs.Prelude.{◌≡◌, ◌≤◌, length, replicate};
ghost use Rattle.sheet_format.specs.Limits.{max_sheet_bytes, table_numbers, max_text_bytes};
ghost use Rattle.sheet_format.specs.Buffers.{demanded};
ghost use Rattle.sheet_format.specs.Sheets.{read_sheet};
ghost use Rattle.checker_spec.specs.CheckText.{count_lf, check_sheet};
ghost use Rattle.checker_spec.specs.Promises.{handed_back, CheckContract};
ghost use Rattle.checker_spec.specs.Handed.{handed};
ghost use Rattle.checker.specs.Checking.{check_refusal, verdict_at};

use checker_state::Shape;
use outcomes::refusals::Reason;
use outcomes::{Refusal, Verdict};
use sheet_format::limits;
use sheet_format::limits::{NUMBERS_PER_UNIT, TABLE_NUMBERS};

const MAX_BYTES: usize = limits::MAX_TEXT_BYTES as usize;

// How many LF bytes the text has. The work buffer has 64 numbers for each.
fn count_lf(text: &[u8]) -> usize
    ensures { result ≡ count_lf text.now }
{
    let mut n: usize = 0;
    for &b in text {
        if b == b'\n' {
            n += 1;
        }
    }
    n
}

// The first of refusals 1, 2 and 4 that arises.
fn check_refusal(sheet: usize, table: usize, text: usize) -> Option<Reason>
    ensures { result ≡ check_refusal sheet table text }
{
    if limits::MAX_SHEET_BYTES < sheet {
        return Some(Reason::SheetTooLong);
    }
    if table < TABLE_NUMBERS {
        return Some(Reason::TableTooShort);
    }
    if MAX_BYTES < text {
        return Some(Reason::TextTooLong);
    }
    None
}

// The verdict for the first line that breaks.
#[tactic(auto, unfolding(crate::specs::Checking::verdict_at))]
fn verdict_at(line: Option<u32>) -> Verdict
    ensures { result ≡ verdict_at line }
{
    match line {
        Some(number) => Verdict::Invalid(number),
        None => Verdict::Valid,
    }
}

// The sheet is read and the text judged.
fn judge_sheet(sheet: &[u8], text: &[u8], t: &mut [u32], w: &mut [u32]) -> Verdict
    requires { (length sheet.now ≤ max_sheet_bytes) × (table_numbers ≤ length t.old) × (length text.now ≤ max_text_bytes)
        × (demanded (count_lf text.now) ≤ length w.old) }
    ensures { handed result ≡ handed_back (check_sheet text.now (read_sheet sheet.now)) }
{
    match sheet_reader::read_sheet(sheet, t) {
        Ok((k, goal)) => {
            let shape = Shape {
                symbols: k.symbols,
                clauses: k.clauses,
                goal,
            };
            let line = text_checker::judge_text(sheet, t, shape, text, w);
            verdict_at(line)
        }
        Err(refusal) => Verdict::Refused(refusal),
    }
}

// The same in the demanded parts of the lent buffers, which end as zeros.
fn check_in_parts(sheet: &[u8], text: &[u8], t: &mut [u32], w: &mut [u32]) -> Verdict
    requires { (length sheet.now ≤ max_sheet_bytes) × (table_numbers ≤ length t.old) × (length text.now ≤ max_text_bytes)
        × (demanded (count_lf text.now) ≤ length w.old) }
    ensures { (handed result ≡ handed_back (check_sheet text.now (read_sheet sheet.now)))
        × (t.new ≡ replicate (length t.old) 0) × (w.new ≡ replicate (length w.old) 0) }
{
    let r = judge_sheet(sheet, text, t, w);
    t.fill(0);
    w.fill(0);
    r
}

// Refusals 1, 2, 4 and 5 change no buffer.
pub fn check(sheet: &[u8], text: &[u8], table: &mut [u32], work: &mut [u32]) -> Verdict
    ensures { CheckContract sheet.now text.now table.old work.old table.new
        work.new (handed result) }
{
    if let Some(reason) = check_refusal(sheet.len(), table.len(), text.len()) {
        return Verdict::Refused(Refusal::new(reason, 0));
    }
    let m = NUMBERS_PER_UNIT * count_lf(text);
    if work.len() < m {
        return Verdict::Refused(Refusal::new(Reason::WorkTooShort, 0));
    }
    check_in_parts(sheet, text, &mut table[..TABLE_NUMBERS], &mut work[..m])
}
