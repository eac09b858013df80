// One node: least starts of the delays and the turns; back if there are none or their latency is at or above best's; else the first clash that
// they meet becomes a turn, and starts that meet none become best.
ghost use Rattle.std.specs.Prelude.{◌≡◌};
ghost use Rattle.node.specs.Walk.{Path, Coded, Steps, bound_of};
ghost use Rattle.node.specs.Kit.{Ready, Reaches, Returned, Visited};

use crate::back::go_back;
use crate::kit::{Kit, Reach, Row, Trail, Walk};
use crate::rows::begin;
use clashes::first_met;
use pairs::unmet;
use starts::least_starts;
use weights::turn::turn_inequality;

// A latency at or above this sends a node back: best's, or one above the largest that there is.
fn bound_of(best: Option<u16>) -> u16
    ensures { result ≡ bound_of best }
{
    best.unwrap_or(43017)
}

// The least starts of a node and their latency, if there are any and their latency is below best's.
fn reach(kit: &Kit, trail: &Trail, walk: Walk) -> Option<Reach>
    requires { Ready kit.now trail.now walk }
    ensures { Reaches kit.now trail.now walk result }
{
    let bound = bound_of(walk.best);
    let mut low = begin(kit, trail, walk.depth);
    if bound <= low.latency {
        return None;
    }
    if !least_starts(
        kit.jobs,
        &kit.weights[..kit.delays],
        &trail.steps[..walk.depth],
        &kit.stays,
        &kit.latest,
        bound,
        &mut low.starts,
        &mut low.latency,
    ) {
        return None;
    }
    Some(low)
}

// The search gone back with the walk's best, and the inequality of the turn that was set to side 1; if no turn is left, it has ended.
fn gone_back(kit: &Kit, trail: &mut Trail, walk: Walk) -> Walk
    requires path { Path trail.old.turns walk.depth × Coded kit.now.clashes.codes trail.old.turns walk.depth }
    requires steps { Steps kit.now.clashes.codes trail.old.turns walk.depth trail.old.steps }
    ensures { Returned kit.now trail.old walk trail.new result }
{
    let Some(last) = go_back(&mut trail.turns, walk.depth) else {
        return Walk {
            depth: 0,
            ended: true,
            ..walk
        };
    };
    let turn = trail.turns[last];
    let clash = kit.clashes.codes[usize::from(turn / 2)];
    trail.steps[last] = turn_inequality(clash, turn);
    Walk {
        depth: last + 1,
        ended: false,
        ..walk
    }
}

// One node.
pub fn visit(kit: &Kit, trail: &mut Trail, walk: Walk) -> Walk
    requires { Ready kit.now trail.old walk }
    ensures { Visited kit.now trail.old walk trail.new result }
{
    let Some(least) = reach(kit, trail, walk) else {
        return gone_back(kit, trail, walk);
    };
    let Reach { starts, latency } = least;
    let low = unmet(&kit.pairs, &starts);
    let met = first_met(&kit.clashes, low, &starts);
    let Some(clash) = met else {
        let better = Walk {
            best: Some(latency),
            starts,
            ..walk
        };
        return gone_back(kit, trail, better);
    };
    let depth = walk.depth;
    let turn = 2 * clash;
    let code = kit.clashes.codes[usize::from(clash)];
    trail.turns[depth] = turn;
    trail.steps[depth] = turn_inequality(code, turn);
    trail.rows[depth % 32] = Row {
        tag: depth as u16,
        low: least,
    };
    Walk {
        depth: depth + 1,
        ended: false,
        ..walk
    }
}
