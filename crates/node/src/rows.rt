// Where a node's rounds begin. A node's inequalities are its parent's and one more, so its least starts are at or above its parent's. The starts of the
// nodes above it are kept in a ring of 32 rows, each with its depth as a tag: a row that is not there costs rounds, and nothing else.
ghost use Rattle.std.specs.Prelude.{◌≡◌, ◌≤◌};
ghost use Rattle.times.specs.Fill.{Small};
ghost use Rattle.starts.specs.Table.{Placed};
ghost use Rattle.node.specs.Rows.{SmallRing, begun};

use crate::kit::{Kit, Reach, Trail};

// The starts that a node at this depth begins with, and their latency: its parent's raised by its last turn, if its parent's row is there, and else the
// earliest.
pub fn begin(kit: &Kit, trail: &Trail, depth: usize) -> Reach
    requires depth_bound { (depth ≤ 1024) × Placed trail.now.steps depth }
    requires small { Small kit.now.stays 16 × SmallRing trail.now.rows }
    ensures { result ≡ begun trail.now.rows trail.now.steps depth kit.now.stays (record { starts = kit.now.earliest; latency = kit.now.first }) }
{
    let first = Reach {
        starts: kit.earliest,
        latency: kit.first,
    };
    if depth == 0 {
        return first;
    }
    let last = depth - 1;
    let row = trail.rows[last % 32];
    if usize::from(row.tag) != last {
        return first;
    }
    let step = trail.steps[last];
    let i = usize::from(step.from);
    let j = usize::from(step.to);
    let mut low = row.low;
    let start = low.starts[j].max((low.starts[i] + 1000).saturating_sub(step.code));
    low.starts[j] = start;
    low.latency = low.latency.max(start + u16::from(kit.stays[j]));
    low
}
