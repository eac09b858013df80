// Nodes until the search has ended or the budget is used.
ghost use Rattle.std.specs.Prelude.{◌≡◌, ◌+◌, ◌≤◌, ◌<◌};
ghost use Rattle.model.specs.Run.{counted};
ghost use Rattle.node.specs.Kit.{Ready};
ghost use Rattle.nodes.specs.Walks.{Walks};

use model::Tally;
use node::visit::visit;
use node::{Kit, Trail, Walk};

// Where the search stands after the nodes, and what they counted.
#[derive(Clone, Copy)]
pub struct Walked {
    pub walk: Walk,
    pub tally: Tally,
}

// One node more. The tally is lent to a thin counter: document 01 names this form.
#[tactic(auto, unfolding(model::specs::Run::counted))]
fn count_node(tally: &mut Tally)
    requires { (0 < tally.old.left) × (tally.old.total + tally.old.left ≤ 100000000) }
    ensures { tally.new ≡ counted tally.old }
{
    tally.total += 1;
    tally.left -= 1;
}

// The nodes that the tally allows, fewer if the search ends before.
pub fn visit_nodes(kit: &Kit, trail: &mut Trail, start: Walk, budget: Tally) -> Walked
    requires left_bound { budget.total + budget.left ≤ 100000000 }
    requires ready { Ready kit.now trail.old start }
    ensures { Walks kit.now trail.old start budget trail.new result }
{
    let mut walk = start;
    let mut tally = budget;
    // A `while`: the tally is the count, as 01 has it, and a range over the budget would count the nodes a second time.
    while 0 < tally.left && !walk.ended {
        count_node(&mut tally);
        walk = visit(kit, trail, walk);
    }
    Walked { walk, tally }
}
