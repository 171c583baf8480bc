// The interface for C and Rust (include/rules.h): what the engine and the checker hand back, as numbers.
#![tactic(auto)]

ghost use Rattle.std.specs.Prelude.{◌≡◌, [], ◌∷◌, get_or};
ghost use Rattle.engine_spec.specs.Handed.{asked, handed as handed_run};
ghost use Rattle.checker_spec.specs.Handed.{handed as handed_check};
ghost use Rattle.rules.specs.Results.{put_front};
ghost use Rattle.rules.specs.RulesRun.{run_numbers, RulesRun};
ghost use Rattle.rules.specs.RulesAsk.{requested, ask_numbers, RulesAsk};
ghost use Rattle.rules.specs.RulesCheck.{check_numbers, RulesCheck};

use memory::{get, put};
use outcomes::{Request, Run, Verdict};

// Numbers over the front of a lent list, as far as it is long.
fn put_front(res: &mut [u32], numbers: &[u32])
    ensures { res.new ≡ put_front numbers.now res.old }
{
    let n = res.len().min(numbers.len());
    res[..n].copy_from_slice(&numbers[..n]);
}

// The run's numbers go to `res`; the outcome's is returned too.
fn report_run(r: Run, res: &mut [u32]) -> u32
    ensures { (result ≡ (handed_run r).outcome) × (res.new ≡ put_front (run_numbers (handed_run r)) res.old) }
{
    let code = u32::from(r.outcome);
    let number = r.outcome.refusal_number();
    let line = r.outcome.refusal_line();
    put_front(res, &[code, r.units, r.length, number, line]);
    code
}

// Calls engine::run for one proof; the outcome's number is returned.
pub fn rules_run(
    sheet: &[u8],
    budget: u32,
    table: &mut [u32],
    work: &mut [u32],
    answer: &mut [u8],
    res: &mut [u32],
) -> u32
    ensures { RulesRun sheet.now budget table.old work.old answer.old
        res.old table.new work.new answer.new res.new result }
{
    let ask = Request { budget, proofs: 1 };
    let r = engine::run(sheet, ask, table, work, answer);
    report_run(r, res)
}

// What is asked for, as far as it is given: a missing budget is 0, a missing number of proofs 1.
fn read_request(request: &[u32]) -> Request
    ensures { asked result ≡ requested request.now }
{
    let budget = get(request, 0);
    if request.len() <= 1 {
        return Request { budget, proofs: 1 };
    }
    let proofs = get(request, 1);
    Request { budget, proofs }
}

// The numbers of rules_run, and the number of proofs after them.
fn report_ask(r: Run, res: &mut [u32]) -> u32
    ensures { (result ≡ (handed_run r).outcome) × (res.new ≡ put_front (ask_numbers (handed_run r)) res.old) }
{
    let outcome = report_run(r, res);
    put(res, 5, r.proofs);
    outcome
}

// Calls engine::run for as many proofs as the request asks for (W-202); the outcome's number is returned.
pub fn rules_ask(
    sheet: &[u8],
    request: &[u32],
    table: &mut [u32],
    work: &mut [u32],
    answer: &mut [u8],
    res: &mut [u32],
) -> u32
    ensures { RulesAsk sheet.now request.now table.old work.old answer.old
        res.old table.new work.new answer.new res.new result }
{
    let ask = read_request(request);
    let r = engine::run(sheet, ask, table, work, answer);
    report_ask(r, res)
}

// The check's numbers go to `res`; the verdict's is returned too.
fn report_check(v: Verdict, res: &mut [u32]) -> u32
    ensures { (result ≡ (handed_check v).verdict) × (res.new ≡ put_front (check_numbers (handed_check v)) res.old) }
{
    let code = u32::from(v);
    put_front(res, &[code, v.line(), v.refusal_number()]);
    code
}

// Calls checker::check; the verdict's number is returned.
pub fn rules_check(
    sheet: &[u8],
    text: &[u8],
    table: &mut [u32],
    work: &mut [u32],
    res: &mut [u32],
) -> u32
    ensures { RulesCheck sheet.now text.now table.old work.old res.old
        table.new work.new res.new result }
{
    let v = checker::check(sheet, text, table, work);
    report_check(v, res)
}
