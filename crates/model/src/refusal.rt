// Why something is refused. Rooms hand a refusal on, by `?`, and the calls give it to their callers.
ghost use Rattle.std.specs.Prelude.{◌≡◌};
ghost use Rattle.model.specs.Refusal.{number};

// In the order of their numbers, which 01's table and the change requests give.
#[derive(Clone, Copy, PartialEq, Eq)]
pub enum Refusal {
    Line,
    Kind,
    Edition,
    Counts,
    DelayJobs,
    Weight,
    Missing,
    Trailing,
    Clashes,
    Unmet,
    Budget,
    Unsound,
    ShortList,
    Total,
    Unended,
    ShortBuffer,
    PlanText,
    PlanJobs,
    PlanWrong,
    Window,
    Rest,
}

impl Refusal {
    // The number by which documents, texts and C know it. A match, and no count of the variants by `as`: so each number stands beside its name, as in
    // the definition `number`.
    #[tactic(auto, unfolding(crate::specs::Refusal::number))]
    pub fn number(self) -> u8
        ensures { result ≡ number self }
    {
        match self {
            Refusal::Line => 1,
            Refusal::Kind => 2,
            Refusal::Edition => 3,
            Refusal::Counts => 4,
            Refusal::DelayJobs => 5,
            Refusal::Weight => 6,
            Refusal::Missing => 7,
            Refusal::Trailing => 8,
            Refusal::Clashes => 9,
            Refusal::Unmet => 10,
            Refusal::Budget => 11,
            Refusal::Unsound => 12,
            Refusal::ShortList => 13,
            Refusal::Total => 14,
            Refusal::Unended => 15,
            Refusal::ShortBuffer => 16,
            Refusal::PlanText => 17,
            Refusal::PlanJobs => 18,
            Refusal::PlanWrong => 19,
            Refusal::Window => 20,
            Refusal::Rest => 21,
        }
    }
}
