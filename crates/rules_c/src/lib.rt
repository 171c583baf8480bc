// The interface for C and Rust (include/rules.h) as a static library: each export calls the function of the crate rules, and its contract is
// the same.
#![tactic(auto)]

ghost use Rattle.rules.specs.RulesRun.{RulesRun};
ghost use Rattle.rules.specs.RulesAsk.{RulesAsk};
ghost use Rattle.rules.specs.RulesCheck.{RulesCheck};

// The engine for one proof; the outcome's number is returned.
#[unsafe(no_mangle)]
pub extern "C" fn rules_run(
    sheet: &[u8],
    budget: u32,
    table: &mut [u32],
    work: &mut [u32],
    answer: &mut [u8],
    res: &mut [u32],
) -> u32
    ensures { RulesRun sheet.now budget table.old work.old answer.old
        res.old table.new work.new answer.new res.new result }
{
    rules::rules_run(sheet, budget, table, work, answer, res)
}

// The engine for as many proofs as the request asks for (W-202); the outcome's number is returned.
#[unsafe(no_mangle)]
pub extern "C" fn rules_ask(
    sheet: &[u8],
    request: &[u32],
    table: &mut [u32],
    work: &mut [u32],
    answer: &mut [u8],
    res: &mut [u32],
) -> u32
    ensures { RulesAsk sheet.now request.now table.old work.old answer.old
        res.old table.new work.new answer.new res.new result }
{
    rules::rules_ask(sheet, request, table, work, answer, res)
}

// The checker; the verdict's number is returned.
#[unsafe(no_mangle)]
pub extern "C" fn rules_check(
    sheet: &[u8],
    text: &[u8],
    table: &mut [u32],
    work: &mut [u32],
    res: &mut [u32],
) -> u32
    ensures { RulesCheck sheet.now text.now table.old work.old res.old
        table.new work.new res.new result }
{
    rules::rules_check(sheet, text, table, work, res)
}
