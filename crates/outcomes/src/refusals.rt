// Why a call is refused, in checking order, named as in include/rules.h; document 01 numbers the reasons (specs/Refusals.antt: number_of).
ghost use Rattle.std.specs.Prelude.{◌≡◌};
ghost use Rattle.outcomes.specs.Refusals.{number_of};

#[derive(Clone, Copy, Debug, PartialEq, Eq)]
pub enum Reason {
    SheetTooLong,
    TableTooShort,
    Budget,
    TextTooLong,
    WorkTooShort,
    Malformed,
    TooMany,
    Unknown,
    WrongKind,
    FreeVariable,
    NoGoal,
    AnswerTooLong,
    // Request W-202: checked right after the budget.
    Proofs,
}

// The reason's number.
impl From<Reason> for u32 {
    ghost from_gives = { λ reason number. number ≡ number_of reason };

    fn from(reason: Reason) -> u32 {
        match reason {
            Reason::SheetTooLong => 1,
            Reason::TableTooShort => 2,
            Reason::Budget => 3,
            Reason::TextTooLong => 4,
            Reason::WorkTooShort => 5,
            Reason::Malformed => 6,
            Reason::TooMany => 7,
            Reason::Unknown => 8,
            Reason::WrongKind => 9,
            Reason::FreeVariable => 10,
            Reason::NoGoal => 11,
            Reason::AnswerTooLong => 12,
            Reason::Proofs => 13,
        }
    }
}
