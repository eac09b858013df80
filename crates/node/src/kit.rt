// What a run works on: what stays as it is, what its nodes change, and where it stands.
use clashes::Clashes;
use pairs::Pairs;
use weights::Inequality;

// What does not change in a run: how many jobs and delays there are, the largest weight of each pair's delays, the jobs' stays and ends, the latency of the
// earliest starts, the clashes' codes, and these by pairs of jobs. Arrays with a count beside: no heap, fixed memory.
#[derive(Drop)]
pub struct Kit {
    pub jobs: usize,
    pub delays: usize,
    pub weights: [Inequality; 128],
    pub stays: [u8; 24],
    pub earliest: [u16; 24],
    pub latest: [u16; 24],
    pub first: u16,
    pub clashes: Clashes,
    pub pairs: Pairs,
}

// What does: the turns of the present path, their inequalities, and the rows of the nodes above. How many turns there are, the walk knows: a trail is lent
// to the search whole, and no turn is moved when one is dropped. A turn is the number 2 * clash + side, half the memory of a Turn.
#[derive(Drop)]
pub struct Trail {
    pub turns: [u16; 1024],
    pub steps: [Inequality; 1024],
    pub rows: [Row; 32],
}

// Where a search stands while it runs, its turns in the trail: how many there are, and best with its starts. These stand beside it as in the record of a
// search, whose theorems speak of the starts where there is no best, too (place_at).
#[derive(Clone, Copy)]
pub struct Walk {
    pub depth: usize,
    pub best: Option<u16>,
    pub starts: [u16; 24],
    pub ended: bool,
}

// Starts that a node begins with or comes to, and their latency.
#[derive(Clone, Copy)]
pub struct Reach {
    pub starts: [u16; 24],
    pub latency: u16,
}

// What a node has come to, under its depth as a tag. A place without a row has a tag that is no depth: an Option in its place would be no plainer, since a row
// of another depth is passed over by the same test.
#[derive(Clone, Copy)]
pub struct Row {
    pub tag: u16,
    pub low: Reach,
}
