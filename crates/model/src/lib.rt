// The types that every room shares, and the record that an accepted opening starts from. What stands in the record
// of the C boundary too has C's layout.
#![tactic(auto)]

mod refusal;

ghost use Rattle.std.specs.Prelude.{◌≡◌};
ghost use Rattle.model.specs.Search.{fresh_search};

pub use refusal::Refusal;

// A delay: `to` starts at least `weight` ticks after `from`.
#[repr(C)]
#[derive(Clone, Copy, PartialEq, Eq)]
pub struct Delay {
    pub from: u8,
    pub to: u8,
    pub weight: i16,
}

// A job's reservation table: bit s of masks[a] is set where the job holds station s in its tick a.
#[repr(C)]
#[derive(Clone, Copy)]
pub struct Job {
    pub ticks: u16,
    pub masks: [u16; 16],
}

// A job's earliest and latest start. `lined` is 0 where the file has no line for them, and anything else where it has one: a number and no Option, since C's
// record holds any bytes.
#[repr(C)]
#[derive(Clone, Copy, PartialEq, Eq)]
pub struct Window {
    pub lined: u16,
    pub earliest: u16,
    pub latest: u16,
}

// The first n jobs with their windows and the first m delays count; the other places are never looked at. rests[s] is how many ticks station s
// rests between two jobs, 0 where the file has no line for it.
// Counts stand beside arrays, and the edition is a number: C's record holds them so.
#[repr(C)]
#[derive(Clone, Copy)]
pub struct Batch {
    pub n: u8,
    pub m: u8,
    pub edition: u16,
    pub jobs: [Job; 24],
    pub delays: [Delay; 128],
    pub windows: [Window; 24],
    pub rests: [u8; 16],
}

// A branching decision: the clash's number in the batch's list, and the side that is taken, 0 or 1: a number, since C's record holds any.
#[repr(C)]
#[derive(Clone, Copy, PartialEq, Eq)]
pub struct Turn {
    pub clash: u16,
    pub side: u16,
}

// `best` is the incumbent's latency. Its starts stand beside it and not in it: the record keeps them without a best too, as numbers that no step looks
// at (search_of).
#[derive(Clone, Copy)]
pub struct Search {
    pub batch: Batch,
    pub path: [Turn; 1024],
    pub best: Option<u16>,
    pub starts: [u16; 24],
    pub total: u32,
    pub ended: bool,
}

// The answer of a run. It is no Result: 01 names these four cases.
#[derive(Clone, Copy)]
pub enum Answer {
    Spent(u32),
    Plan(u16, u32),
    NoPlan(u32),
    Refused(Refusal),
}

// What a run yields: its answer, and beside it the record, where it is refused too (RunLeaves.refused).
#[derive(Clone, Copy)]
pub struct Ran {
    pub answer: Answer,
    pub search: Search,
}

// What opening yields. Beside a refusal stands the blank record, and so it is no Result<Search, Refusal>: OpeningLeaves.refused names that record.
#[derive(Clone, Copy)]
pub struct Opened {
    pub answer: Result<(), Refusal>,
    pub search: Search,
}

// The nodes visited and the nodes still allowed.
#[derive(Clone, Copy)]
pub struct Tally {
    pub total: u32,
    pub left: u32,
}

// A path's place without a turn: a Turn of its own and no Option, since C's record has the path as an array of turns.
pub const EMPTY: Turn = Turn {
    clash: 65535,
    side: 0,
};

// A batch's place without a delay.
pub const NO_DELAY: Delay = Delay {
    from: 0,
    to: 0,
    weight: 0,
};

// The ends of a job without a line.
pub const NO_WINDOW: Window = Window {
    lined: 0,
    earliest: 0,
    latest: 65535,
};

// The search of a batch before its first node.
pub fn fresh(batch: Batch) -> Search
    ensures { result ≡ fresh_search batch }
{
    Search {
        batch,
        path: [EMPTY; 1024],
        best: None,
        starts: [0; 24],
        total: 0,
        ended: false,
    }
}
