// What the engine and the checker hand back (document 01, "proved, no, spent or one numbered refusal with its line").
#![tactic(auto)]

pub mod refusals;

ghost use Rattle.std.specs.Prelude.{◌≡◌};
ghost use Rattle.outcomes.specs.Outcomes.{outcome_code, refusal_number, refusal_line, refused_run};
ghost use Rattle.outcomes.specs.Outcomes.{verdict_code, verdict_line, verdict_number};
ghost use Rattle.outcomes.specs.Refusals.{refused_for};

use refusals::Reason;

// Document 01's number of a refusal, and the line.
#[derive(Clone, Copy)]
pub struct Refusal {
    pub number: u32,
    pub line: u32,
}

impl Refusal {
    // For that reason, at that line.
    pub fn new(reason: Reason, line: u32) -> Refusal
        ensures { result ≡ refused_for reason line }
    {
        Refusal {
            number: u32::from(reason),
            line,
        }
    }
}

#[derive(Clone, Copy)]
pub enum Outcome {
    Proved,
    No,
    Spent,
    Refused(Refusal),
}

// The outcome's number.
impl From<Outcome> for u32 {
    ghost from_gives = { λ outcome number. number ≡ outcome_code outcome };

    #[tactic(auto, unfolding(crate::specs::Outcomes::outcome_code))]
    fn from(outcome: Outcome) -> u32 {
        match outcome {
            Outcome::Proved => 0,
            Outcome::No => 1,
            Outcome::Spent => 2,
            Outcome::Refused(_) => 3,
        }
    }
}

impl Outcome {
    // The refusal's number and line, 0 where there is none.
    #[tactic(auto, unfolding(crate::specs::Outcomes::refusal_number))]
    pub fn refusal_number(self) -> u32
        ensures { result ≡ refusal_number self }
    {
        match self {
            Outcome::Refused(refusal) => refusal.number,
            Outcome::Proved | Outcome::No | Outcome::Spent => 0,
        }
    }

    #[tactic(auto, unfolding(crate::specs::Outcomes::refusal_line))]
    pub fn refusal_line(self) -> u32
        ensures { result ≡ refusal_line self }
    {
        match self {
            Outcome::Refused(refusal) => refusal.line,
            Outcome::Proved | Outcome::No | Outcome::Spent => 0,
        }
    }
}

// What the caller asks for: at most so many units, and at most so many proofs (request W-202).
#[derive(Clone, Copy)]
pub struct Request {
    pub budget: u32,
    pub proofs: u32,
}

// Outcome and units are those of the last R line. Units, number of proofs and text length are 0 where the run is refused.
#[derive(Clone, Copy)]
pub struct Run {
    pub outcome: Outcome,
    pub units: u32,
    pub proofs: u32,
    pub length: u32,
}

// The line of a text that breaks.
#[derive(Clone, Copy)]
pub enum Verdict {
    Valid,
    Invalid(u32),
    Refused(Refusal),
}

// The verdict's number.
impl From<Verdict> for u32 {
    ghost from_gives = { λ verdict number. number ≡ verdict_code verdict };

    #[tactic(auto, unfolding(crate::specs::Outcomes::verdict_code))]
    fn from(verdict: Verdict) -> u32 {
        match verdict {
            Verdict::Valid => 0,
            Verdict::Invalid(_) => 1,
            Verdict::Refused(_) => 3,
        }
    }
}

impl Verdict {
    // The line that breaks or is refused, and the refusal's number, 0 where there is none.
    #[tactic(auto, unfolding(crate::specs::Outcomes::verdict_line))]
    pub fn line(self) -> u32
        ensures { result ≡ verdict_line self }
    {
        match self {
            Verdict::Valid => 0,
            Verdict::Invalid(line) => line,
            Verdict::Refused(refusal) => refusal.line,
        }
    }

    #[tactic(auto, unfolding(crate::specs::Outcomes::verdict_number))]
    pub fn refusal_number(self) -> u32
        ensures { result ≡ verdict_number self }
    {
        match self {
            Verdict::Refused(refusal) => refusal.number,
            Verdict::Valid | Verdict::Invalid(_) => 0,
        }
    }
}

// A refused run.
impl From<Refusal> for Run {
    ghost from_gives = { λ refusal run. run ≡ refused_run refusal.number refusal.line };

    fn from(refusal: Refusal) -> Run {
        Run {
            outcome: Outcome::Refused(refusal),
            units: 0,
            proofs: 0,
            length: 0,
        }
    }
}
