// The two sides of the bound: what the tasks above and the task itself may need, against q over r ticks.
ghost use Rattle.std.specs.Prelude.{◌≡◌, ◌+◌, ◌*◌, ◌≤◌, List, ℕ};
ghost use Rattle.paper.specs.Certificate.{charge_at, count_in, load, need, own};
ghost use Rattle.quantity.specs.Quantity.{units};
ghost use Rattle.board.specs.Packed.{tasks_of, unpacked_task};
ghost use Rattle.certificate.specs.Bound.{Above, AllAbove, Sides, Bounded, Leaves};

use board::Task;
use quantity::{Speed, Ticks, Units};

// The charge of one job of a task: one tick of the fastest, less one unit, comes on top of its c.
fn charge(task: &Task, fastest: Speed) -> Units
    requires { task.now.c.0 ≤ 1000000 }
    ensures { result ≡ units (charge_at fastest.0 task.now.c.0) }
{
    task.c.plus(fastest.over(Ticks(1))).less(Units(1))
}

// The job count of a task in `window` ticks. Rounded up by a sum: `div_ceil` also takes the remainder, and this is the innermost step of the
// check, where that was measured to cost a fifth more.
fn jobs(task: &Task, window: Ticks) -> u64
    requires { Above window task.now }
    ensures { result ≡ count_in window.0 task.now.r.0 task.now.t.0 }
{
    u64::from((window.0 + task.r.0 - 1 + task.t.0 - 1) / task.t.0)
}

// The load of the tasks above in `window` ticks: each one's job count times its charge.
fn load(above: &[Task], window: Ticks, fastest: Speed) -> Units
    requires { AllAbove window above.now fastest }
    ensures loaded { (speeds : List ℕ) → fastest.0 ≡ own speeds 0 → result ≡ units (load speeds (tasks_of above.now) window.0) }
    ensures light { result.0 ≤ 95009405000000 }
{
    let mut load = Units(0);
    for task in above {
        load = load.plus(charge(task, fastest).times(jobs(task, window)));
    }
    load
}

// What has to stay below q over r ticks: y times the load, plus z times one unit less than c, whatever the speeds.
fn demand(task: &Task, load: Units) -> Units
    requires { Sides load task.now }
    ensures { (speeds : List ℕ) → result ≡ units (task.now.y * load.0 + task.now.z * need speeds task.now.c.0) }
{
    load.times(u64::from(task.y))
        .plus(task.c.less(Units(1)).times(u64::from(task.z)))
}

// How far the demand of a task stays below q over r ticks; none where it does not stay below.
pub fn slack_of(task: &Task, above: &[Task], fastest: Speed) -> Option<Units>
    requires { Bounded task.now above.now fastest }
    ensures { (speeds : List ℕ) → fastest.0 ≡ own speeds 0 → Leaves speeds (tasks_of above.now) (unpacked_task task.now) result }
{
    let needed = demand(task, load(above, task.r, fastest));
    let bound = task.q.over(task.r);
    if needed < bound {
        Some(bound.less(needed))
    } else {
        None
    }
}
