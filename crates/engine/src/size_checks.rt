// The first refusal of a run that looks at sizes and at what is asked for alone.
ghost use Rattle.std.specs.Prelude.{◌≡◌};
ghost use Rattle.engine.specs.Answering.{ask_refusal, run_refusal};

use memory::widen;
use outcomes::Request;
use outcomes::refusals::Reason;
use sheet_format::limits;

// Refusals 3 and 13: the first that arises.
fn ask_refusal(budget: u32, proofs: u32) -> Option<Reason>
    ensures { result ≡ ask_refusal budget proofs }
{
    if budget == 0 {
        return Some(Reason::Budget);
    }
    if limits::MAX_BUDGET < budget {
        return Some(Reason::Budget);
    }
    if proofs == 0 {
        return Some(Reason::Proofs);
    }
    if limits::MAX_PROOFS < proofs {
        return Some(Reason::Proofs);
    }
    None
}

// The first refusal that looks at sizes and at what is asked for alone.
pub fn run_refusal(sheet: usize, ask: Request, table: usize, work: usize) -> Option<Reason>
    ensures { result ≡ run_refusal sheet ask table work }
{
    if limits::MAX_SHEET_BYTES < sheet {
        return Some(Reason::SheetTooLong);
    }
    if table < limits::TABLE_NUMBERS {
        return Some(Reason::TableTooShort);
    }
    if let Some(reason) = ask_refusal(ask.budget, ask.proofs) {
        return Some(reason);
    }
    if work < limits::NUMBERS_PER_UNIT * widen(ask.budget) {
        return Some(Reason::WorkTooShort);
    }
    None
}
