// IN's walk of a line whose lengths are checked: `walk` with IN's tests. It ends as the written walk of `rules`,
// after as many visits, for all numbers that the slices can hold.
#![tactic(auto)]

ghost use Rattle.limits.specs.Small.{OnSheet};
ghost use Rattle.visits.specs.Fine.{LengthsFine};
ghost use Rattle.in_walk.specs.Walks.{Comes};

use in_visit::In;
use rules::{Point, Tally};
use walk::walk_any_line;

// The walk from the root, wherever the line begins and ends.
pub fn ask(points: &&[i64], table: &&[i64], z: Point, allowance: u32) -> u64
    requires { LengthsFine points.now.now table.now.now × OnSheet z }
    ensures { Comes points.now.now table.now.now z allowance result }
{
    walk_any_line(&In { z }, points, table, Tally::fresh(allowance))
}
