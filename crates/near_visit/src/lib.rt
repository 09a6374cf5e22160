// NEAR as a question to the walk: whether a node's strip is more than the distance away from a point, and a segment
// within it. What it answers is what `rules` writes, for all rows and points of the sheet.
#![tactic(auto)]

ghost use Rattle.std.specs.Prelude.{◌≡◌, pos, ◌*ℤ◌};
ghost use Rattle.integers.specs.Range.{Abs≤};
ghost use Rattle.rules.specs.Sheet.{farthest};
ghost use Rattle.rules.specs.Questions.{Nothing};
ghost use Rattle.limits.specs.Small.{OnSheet};
ghost use Rattle.reach.specs.Bounds.{ReachFits};
ghost use Rattle.near_visit.specs.Tests.{nothing_counted, near_tests};

use reach::{far_along, far_from, within};
use rules::{Point, Row};
use walk::Question;

// The point that is asked for, and the distance.
#[derive(Drop)]
pub struct Near {
    pub z: Point,
    pub distance: i64,
    ghost on_sheet: { OnSheet z },
    ghost fits: { Abs≤ farthest distance },
}

impl Near {
    // The distance squared.
    fn reach(&self) -> u64
        ensures squared { pos result ≡ self.now.distance *ℤ self.now.distance }
        ensures fits { ReachFits result }
    {
        (self.distance * self.distance) as u64
    }
}

// NEAR counts nothing.
impl Question for Near {
    ghost Count = { Nothing };

    ghost counting = { nothing_counted };

    ghost tests = { λ s. near_tests s.z s.distance };

    fn dismisses(&self, r: Row, a: Point, b: Point) -> bool {
        far_from(r, a, b, self.z, self.reach())
    }

    fn dismisses_along(&self, r: Row, a: Point, u: Point) -> bool {
        far_along(r, a, u, self.z, self.reach())
    }

    fn meets(&self, a: Point, b: Point) -> bool {
        within(self.z, a, b, self.reach())
    }

    fn crosses(&self, _a: Point, _b: Point) -> bool {
        false
    }
}
