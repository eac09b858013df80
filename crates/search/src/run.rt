// A run: refusals 11 to 14 in turn, then nodes until the search has ended or the budget is used, and the answer.
ghost use Rattle.std.specs.Prelude.{◌≡◌, true, false, not, ◌||◌, leb, ◌+◌, ◌≤◌};
ghost use Rattle.model.specs.Search.{search_of, nodes};
ghost use Rattle.model.specs.Sound.{sound};
ghost use Rattle.model.specs.Run.{ran};
ghost use Rattle.node.specs.Walk.{Path, Coded, Steps, place_at};
ghost use Rattle.soundness.specs.Examined.{Prepared};

use crate::answer::answered;
use crate::path::path_of;
use model::{Answer, Batch, Ran, Refusal, Search, Tally};
use node::{Kit, Reach, Row, Trail, Walk};
use nodes::{Walked, visit_nodes};
use pairs::{Pairs, find_pairs};
use soundness::{Examined, examine};
use starts::heaviest_of;
use times::latency::raised_latency;
use weights::turn::turn_inequality;
use weights::{BLANK, Inequality};

// The record where a run has come to.
fn rebuilt(batch: Batch, turns: &[u16; 1024], walked: Walked) -> Search
    requires { walked.walk.depth ≤ 1024 }
    ensures { result ≡ search_of batch walked.tally.total (place_at turns.now walked.walk) }
{
    let Walk {
        depth,
        best,
        starts,
        ended,
    } = walked.walk;
    let path = path_of(turns, depth);
    Search {
        batch,
        path,
        best,
        starts,
        total: walked.tally.total,
        ended,
    }
}

// The inequalities of the first depth turns, each stored at its place. (Turns and depth stand apart, as a Trail and a Walk have them, and so what holds of
// both stands in the contract.)
fn store_turns(
    codes: &[u16; 1024],
    turns: &[u16; 1024],
    depth: usize,
    steps: &mut [Inequality; 1024],
)
    requires path { Path turns.now depth × Coded codes.now turns.now depth }
    requires none_yet { Steps codes.now turns.now 0 steps.old }
    ensures { Steps codes.now turns.now depth steps.new }
{
    for k in 0..depth {
        let turn = turns[k];
        steps[k] = turn_inequality(codes[usize::from(turn / 2)], turn);
    }
}

// How many of the clashes a run takes by pairs: all, if it has the nodes to pay for finding the pairs, and else none.
fn taken_by_pairs(count: usize, budget: u32) -> usize
    ensures { result ≤ count }
{
    if budget < 8 { 0 } else { count }
}

// A sound record that has not ended, after the budget's nodes. What they work on was examined; the latency of the earliest starts, the largest weight of
// each pair's delays, the clashes by pairs and the turns' inequalities are found here.
#[inline(never)]
fn advance(search: Search, examined: Examined, budget: u32) -> Search
    requires search_value { (sound search ≡ true) × (search.ended ≡ false) }
    requires budget_bound { search.total + budget ≤ 100000000 }
    requires prepared { Prepared search examined }
    ensures { result ≡ nodes budget search }
{
    // Only fields are read of the two, and none is lent: else each would be copied whole to the stack.
    let batch = search.batch;
    let best = search.best;
    let starts = search.starts;
    let turns = examined.route.turns;
    let depth = examined.route.depth;
    let no_row = Row {
        tag: 65535,
        low: Reach {
            starts: [0; 24],
            latency: 0,
        },
    };
    let mut trail = Trail {
        turns,
        steps: [BLANK; 1024],
        rows: [no_row; 32],
    };
    let stays = examined.stays;
    let earliest = examined.ends.earliest;
    let latest = examined.ends.latest;
    let m = usize::from(batch.m);
    let delays = examined.delays;
    let weights = heaviest_of(m, &delays);
    let mut kit = Kit {
        jobs: usize::from(batch.n),
        delays: m,
        weights,
        stays,
        earliest,
        latest,
        first: raised_latency(0, &stays, &earliest),
        clashes: examined.clashes,
        pairs: Pairs {
            pair: [0; 276],
            held: [0; 276],
            end: [0; 276],
            count: 0,
        },
    };
    let paired = taken_by_pairs(kit.clashes.count, budget);
    find_pairs(&kit.clashes.codes, paired, &mut kit.pairs);
    store_turns(&kit.clashes.codes, &trail.turns, depth, &mut trail.steps);
    let start = Walk {
        depth,
        best,
        starts,
        ended: false,
    };
    let tally = Tally {
        total: search.total,
        left: budget,
    };
    let walked = visit_nodes(&kit, &mut trail, start, tally);
    rebuilt(batch, &trail.turns, walked)
}

// Whether a search that has not ended would pass the limit on total.
fn overdrawn(ended: bool, total: u32, budget: u32) -> bool
    requires { budget ≤ 1000000 }
    ensures { not result ≡ (ended || leb (total + budget) 100000000) }
{
    !ended && 100000000 - budget < total
}

// A sound record after the budget's nodes; an ended search counts nothing, and nothing is made ready for no nodes.
fn after_run(search: Search, examined: Examined, budget: u32) -> Search
    requires search_value { (sound search ≡ true) × ((search.ended || leb (search.total + budget) 100000000) ≡ true) }
    requires prepared { Prepared search examined }
    ensures { result ≡ nodes budget search }
{
    if search.ended || budget == 0 {
        return search;
    }
    advance(search, examined, budget)
}

// A refusal leaves the record unchanged. (The clause writes out the Ran: it has these two parts alone.)
fn refused(search: Search, refusal: Refusal) -> Ran
    ensures { result ≡ record { answer = Answer.Refused refusal; search = search } }
{
    Ran {
        answer: Answer::Refused(refusal),
        search,
    }
}

// A run on any record, with any budget and any list of starts. The refusals return a whole Ran, as the answer does: the record
// stands beside a refusal too (RunLeaves.refused). A Result inside would be turned into a Ran again, a second one on the stack, 5.6 KB.
pub fn run_search(search: Search, budget: u32, list: &mut [u16]) -> Ran
    ensures { (result, list.new) ≡ ran search budget list.old }
{
    if 1000000 < budget {
        return refused(search, Refusal::Budget);
    }
    let Some(examined) = examine(search) else {
        return refused(search, Refusal::Unsound);
    };
    if list.len() < usize::from(search.batch.n) {
        return refused(search, Refusal::ShortList);
    }
    if overdrawn(search.ended, search.total, budget) {
        return refused(search, Refusal::Total);
    }
    let after = after_run(search, examined, budget);
    let answer = answered(&after, list);
    Ran {
        answer,
        search: after,
    }
}
