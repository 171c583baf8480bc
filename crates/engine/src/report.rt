// The end of a run: what the search came to, its text written, and what is told of both.
ghost use Rattle.std.specs.Prelude.{◌≡◌, length};
ghost use Rattle.machine.specs.Records.{made};
ghost use Rattle.engine.specs.Answering.{reported, reply, report_outcome};

use machine::{Registers, modes};
use outcomes::refusals::Reason;
use outcomes::{Outcome, Refusal, Run};

// A text of this length was written, or did not fit.
#[tactic(auto, unfolding(crate::specs::Answering::reported))]
pub fn fitting_run(outcome: Outcome, units: u32, proofs: u32, length: Option<u32>) -> Run
    ensures { result ≡ reported outcome units proofs length }
{
    let Some(length) = length else {
        return Run::from(Refusal::new(Reason::AnswerTooLong, 0));
    };
    Run {
        outcome,
        units,
        proofs,
        length,
    }
}

// The text of what the machine came to, and what is told of it, where one proof is asked for.
pub fn report_outcome(
    sheet: &[u8],
    t: &[u32],
    goal: u32,
    budget: u32,
    w: &mut [u32],
    r: Registers,
    answer: &mut [u8],
) -> Run
    ensures { reply answer.new result ≡ report_outcome sheet.now t.now goal budget
        (made w.old r) answer.old }
{
    let acts = r.acts;
    if r.mode == modes::PROVED {
        let n = answer_printer::write_proof(sheet, t, goal, w, r, acts, answer);
        return fitting_run(Outcome::Proved, acts, 1, n);
    }
    if r.mode == modes::NO {
        let n = answer_printer::short_texts::write_no(acts, answer);
        return fitting_run(Outcome::No, acts, 0, n);
    }
    let n = answer_printer::short_texts::write_spent(budget, answer);
    fitting_run(Outcome::Spent, budget, 0, n)
}
