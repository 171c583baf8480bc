// The engine: a sheet is read, searched within a budget and answered, in buffers that the caller lends (document 01).
#![tactic(auto)]

mod listing;
mod report;
mod size_checks;

ghost use Rattle.std.specs.Prelude.{◌≡◌, ◌≤◌, length, replicate};
ghost use Rattle.sheet_format.specs.Limits.{max_sheet_bytes, table_numbers, max_budget};
ghost use Rattle.sheet_format.specs.Buffers.{demanded};
ghost use Rattle.machine.specs.Machine.{run_machine};
ghost use Rattle.engine_spec.specs.Promises.{RunContract};
ghost use Rattle.engine_spec.specs.Handed.{asked, handed};
ghost use Rattle.engine.specs.Answering.{reply, Answering};
ghost use Rattle.engine.specs.Searching.{report_search};

use listing::{Query, report_proofs};
use memory::widen;
use outcomes::{Refusal, Request, Run};
use report::report_outcome;
use sheet_format::limits::{NUMBERS_PER_UNIT, TABLE_NUMBERS};
use size_checks::run_refusal;

// The search for the goal that stands in the table, and its answer: of one proof, or of all that are wanted.
fn search(sheet: &[u8], t: &[u32], query: Query, w: &mut [u32], answer: &mut [u8]) -> Run
    requires { 1 ≤ query.proofs }
    ensures { reply answer.new result ≡ report_search sheet.now t.now query
        (run_machine query.budget t.now query.clauses query.goal w.old) answer.old }
{
    let r = machine_loop::run_machine(query.budget, t, query.clauses, query.goal, w);
    if query.proofs == 1 {
        return report_outcome(sheet, t, query.goal, query.budget, w, r, answer);
    }
    report_proofs(sheet, t, query, w, r, answer)
}

// The sheet is read and answered.
fn answer_sheet(sheet: &[u8], ask: Request, t: &mut [u32], w: &mut [u32], answer: &mut [u8]) -> Run
    requires { (length sheet.now ≤ max_sheet_bytes) × (table_numbers ≤ length t.old) × (ask.budget ≤ max_budget)
        × (1 ≤ ask.proofs) × (demanded ask.budget ≤ length w.old) }
    ensures { Answering sheet.now ask answer.old answer.new result }
{
    match sheet_reader::read_sheet(sheet, t) {
        Ok((k, goal)) => {
            let query = Query {
                clauses: k.clauses,
                goal,
                budget: ask.budget,
                proofs: ask.proofs,
            };
            search(sheet, t, query, w, answer)
        }
        Err(refusal) => Run::from(refusal),
    }
}

// The same in the demanded parts of the lent buffers, which end as zeros.
fn run_in_parts(sheet: &[u8], ask: Request, t: &mut [u32], w: &mut [u32], answer: &mut [u8]) -> Run
    requires { (length sheet.now ≤ max_sheet_bytes) × (table_numbers ≤ length t.old) × (ask.budget ≤ max_budget)
        × (1 ≤ ask.proofs) × (demanded ask.budget ≤ length w.old) }
    ensures { Answering sheet.now ask answer.old answer.new result
        × (t.new ≡ replicate (length t.old) 0) × (w.new ≡ replicate (length w.old) 0) }
{
    let r = answer_sheet(sheet, ask, t, w, answer);
    t.fill(0);
    w.fill(0);
    r
}

// The engine: refusals 1 to 5 and 13 change no buffer; past them the demanded parts of table and work buffer are lent on.
pub fn run(
    sheet: &[u8],
    ask: Request,
    table: &mut [u32],
    work: &mut [u32],
    answer: &mut [u8],
) -> Run
    ensures { RunContract sheet.now (asked ask) table.old work.old answer.old
        table.new work.new answer.new (handed result) }
{
    if let Some(reason) = run_refusal(sheet.len(), ask, table.len(), work.len()) {
        return Run::from(Refusal::new(reason, 0));
    }
    let m = NUMBERS_PER_UNIT * widen(ask.budget);
    run_in_parts(
        sheet,
        ask,
        &mut table[..TABLE_NUMBERS],
        &mut work[..m],
        answer,
    )
}
