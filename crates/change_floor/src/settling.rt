// What a decision changes for those that need the install.
ghost use Rattle.std.specs.Prelude.{◌≡◌, ◌+◌, ◌<◌, length};
ghost use Rattle.change_floor.specs.Keeping.{CountsUnmet, Settles, Turned};
ghost use Rattle.change_floor.specs.Queues.{Fits};

use crate::queue::Queue;
use crate::rows::Rows;
use action_graph::Plan;

// Only an install that was done sets others free.
pub(crate) fn settle(
    queue: &mut Queue,
    plan: &Plan,
    dependents: &Rows,
    decided: &[bool],
    done: bool,
)
    requires turned { Turned plan.now dependents.now }
    requires fits { Fits queue.old.left queue.old.ready }
    requires counted { length queue.old.left ≡ length plan.now.installs }
    requires within { length decided.now < length plan.now.removals + length plan.now.installs }
    requires counts { CountsUnmet plan.now decided.now queue.old.left }
    ensures { Settles plan.now decided.now done queue.old queue.new }
{
    if decided.len() < plan.removals.len() {
        return;
    }
    if !done {
        return;
    }
    let place = decided.len() - plan.removals.len();
    queue.release(dependents.row(place));
}
