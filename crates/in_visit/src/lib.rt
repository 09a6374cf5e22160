// IN as a question to the walk: whether a point is clear of a node, on a segment, and level with a chord to its right.
// What it answers is what `rules` writes, for all rows and points of the sheet.
#![tactic(auto)]

ghost use Rattle.std.specs.Prelude.{Bool};
ghost use Rattle.limits.specs.Small.{OnSheet};
ghost use Rattle.in_visit.specs.Tests.{parity, in_tests};

use rules::{Point, Row};
use sides::{clear_along, clear_of, crosses, on_segment};
use walk::Question;

// The point that is asked for.
#[derive(Drop)]
pub struct In {
    pub z: Point,
    ghost on_sheet: { OnSheet z },
}

// IN counts whether the chords that cross are odd.
impl Question for In {
    ghost Count = { Bool };

    ghost counting = { parity };

    ghost tests = { λ s. in_tests s.z };

    fn dismisses(&self, r: Row, a: Point, b: Point) -> bool {
        clear_of(r, a, b, self.z)
    }

    fn dismisses_along(&self, r: Row, a: Point, u: Point) -> bool {
        clear_along(r, a, u, self.z)
    }

    fn meets(&self, a: Point, b: Point) -> bool {
        on_segment(self.z, a, b)
    }

    fn crosses(&self, a: Point, b: Point) -> bool {
        crosses(self.z, a, b)
    }
}
