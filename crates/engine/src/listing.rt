// The search that goes on after each proof (request W-202): the texts of the proofs, one after another, and what is told of them. They are
// written into bytes of their own, and copied once it is known that all of them fit.
ghost use Rattle.std.specs.Prelude.{◌-◌, ◌≤◌, ◌≡◌, length};
ghost use Rattle.machine.specs.Records.{made};
ghost use Rattle.printing.specs.Output.{written};
ghost use Rattle.engine.specs.Answering.{reply};
ghost use Rattle.engine.specs.Listing.{go_on, listed, write_proofs, write_last, tell, report_proofs};

use super::report::fitting_run;
use answer_printer::short_texts::{MAX_BYTES, append_result, text_limit};
use answer_printer::{Room, append_proof, copy_out};
use machine::{Registers, modes};
use machine_loop::run_acts;
use machine_memory::choice_points::failed;
use outcomes::{Outcome, Run};
use term_printer::path_links::clear_variables;

// What is searched for: the number of the sheet's clauses, the goal's node, the budget and the number of proofs.
#[derive(Clone, Copy)]
pub struct Query {
    pub clauses: u32,
    pub goal: u32,
    pub budget: u32,
    pub proofs: u32,
}

// The registers after the last act, the length of the texts so far, and how many proofs are still wanted.
#[derive(Clone, Copy)]
pub struct Progress {
    pub registers: Registers,
    pub at: u32,
    pub left: u32,
}

// The search goes on after a proof, as if it had failed, once the numbers that its text gave to variables are cleared.
fn go_on(t: &[u32], query: Query, w: &mut [u32], r: Registers) -> Registers
    ensures { made w.new result ≡ go_on t.now query (made w.old r) }
{
    let left = query.budget.saturating_sub(r.acts);
    clear_variables(r.next, w);
    let s = failed(w, r);
    run_acts(left, t, query.clauses, w, s)
}

// The proofs, until there are as many as are wanted, no other is found or the texts do not fit.
// A `while`: whether there is a further proof is what the search comes to.
fn write_proofs(
    sheet: &[u8],
    t: &[u32],
    query: Query,
    w: &mut [u32],
    from: Registers,
    own: &mut [u8],
    limit: u32,
) -> Progress
    requires { (limit ≤ 65535) × (1 ≤ query.proofs) }
    ensures result_after { listed w.new own.new result ≡ write_proofs query.proofs sheet.now t.now query
        limit (made w.old from) own.old 0 }
    ensures left_le_proofs { result.left ≤ query.proofs }
{
    let mut registers = from;
    let mut at: u32 = 0;
    let mut left = query.proofs;
    while registers.mode == modes::PROVED {
        at = append_proof(sheet, t, query.goal, w, registers, own, Room { limit, at });
        left -= 1;
        if left == 0 {
            return Progress {
                registers,
                at,
                left,
            };
        }
        if limit < at {
            return Progress {
                registers,
                at,
                left,
            };
        }
        registers = go_on(t, query, w, registers);
    }
    Progress {
        registers,
        at,
        left,
    }
}

// The line after the last proof, where fewer were found than are wanted; the result is the length of the whole text.
fn write_last(budget: u32, p: Progress, own: &mut [u8], limit: u32) -> u32
    ensures { written own.new result ≡ write_last budget p own.old limit }
{
    let at = p.at;
    if p.left == 0 {
        return at;
    }
    if p.registers.mode == modes::NO {
        return append_result(b"R\tno\t", p.registers.acts, own, Room { limit, at });
    }
    append_result(b"R\tspent\t", budget, own, Room { limit, at })
}

// Outcome and units of the last R line, and the number of proofs.
fn tell(query: Query, p: Progress, length: Option<u32>) -> Run
    requires { p.left ≤ query.proofs }
    ensures { result ≡ tell query p length }
{
    let found = query.proofs - p.left;
    let acts = p.registers.acts;
    if p.left == 0 {
        return fitting_run(Outcome::Proved, acts, found, length);
    }
    if p.registers.mode == modes::NO {
        return fitting_run(Outcome::No, acts, found, length);
    }
    fitting_run(Outcome::Spent, query.budget, found, length)
}

// The texts of all proofs that are wanted, from the first verdict on, and what is told of them.
pub fn report_proofs(
    sheet: &[u8],
    t: &[u32],
    query: Query,
    w: &mut [u32],
    r: Registers,
    answer: &mut [u8],
) -> Run
    requires { 1 ≤ query.proofs }
    ensures { reply answer.new result ≡ report_proofs sheet.now t.now query (made w.old r)
        answer.old }
{
    let limit = text_limit(answer);
    let mut own = [0u8; MAX_BYTES];
    let p = write_proofs(sheet, t, query, w, r, &mut own, limit);
    let at = write_last(query.budget, p, &mut own, limit);
    let n = copy_out(&own, Room { limit, at }, answer);
    tell(query, p, n)
}
