// NEAR's walk of a line whose lengths are checked: `walk` with NEAR's tests. It ends as the written walk of `rules`,
// after as many visits, for all numbers that the slices can hold.
#![tactic(auto)]

ghost use Rattle.integers.specs.Range.{Abs≤};
ghost use Rattle.rules.specs.Sheet.{farthest};
ghost use Rattle.limits.specs.Small.{OnSheet};
ghost use Rattle.visits.specs.Fine.{LengthsFine};
ghost use Rattle.near_walk.specs.Walks.{AsksLine, Comes};

use near_visit::Near;
use rules::{Point, Tally};
use walk::{walk_any_line, walk_line};

// NEAR of a line whose lengths and ends, and a point and a distance, are checked; the tally goes on.
pub fn ask(points: &&[i64], table: &&[i64], z: Point, d: i64, tally: Tally) -> u64
    requires { AsksLine points.now.now table.now.now d × OnSheet z }
    ensures { Comes points.now.now table.now.now z d tally result }
{
    walk_line(&Near { z, distance: d }, points, table, tally)
}

// The same, wherever the line begins and ends: off the sheet its root's row is bad.
pub fn ask_any(points: &&[i64], table: &&[i64], z: Point, d: i64, tally: Tally) -> u64
    requires { LengthsFine points.now.now table.now.now × OnSheet z × Abs≤ farthest d }
    ensures { Comes points.now.now table.now.now z d tally result }
{
    walk_any_line(&Near { z, distance: d }, points, table, tally)
}
