// Whether two segments share a point, ends, touches and overlaps included.
ghost use Rattle.std.specs.Prelude.{◌≡◌};
ghost use Rattle.rules.specs.Plain.{ranges_overlap, boxes_overlap, one_side, share};
ghost use Rattle.limits.specs.Small.{OnSheet};
ghost use Rattle.apart.specs.Aside.{both_aside};

use line::{c_at, step};
use rules::Point;

fn ranges_overlap(a: i64, b: i64, c: i64, d: i64) -> bool
    ensures { result ≡ ranges_overlap a b c d }
{
    a.min(b) <= c.max(d) && c.min(d) <= a.max(b)
}

fn boxes_overlap(a: Point, b: Point, c: Point, d: Point) -> bool
    ensures { result ≡ boxes_overlap a b c d }
{
    ranges_overlap(a.x, b.x, c.x, d.x) && ranges_overlap(a.y, b.y, c.y, d.y)
}

// Whether two values of c are both above 0, or both below 0.
fn one_side(one: i64, other: i64) -> bool
    ensures { result ≡ one_side one other }
{
    (0 < one && 0 < other) || (one < 0 && other < 0)
}

// Whether c and d lie on one side of the line through a and b.
fn both_aside(a: Point, b: Point, c: Point, d: Point) -> bool
    requires { OnSheet a × OnSheet b × OnSheet c × OnSheet d }
    ensures { result ≡ both_aside a b c d }
{
    let u = step(a, b);
    one_side(c_at(a, u, c), c_at(a, u, d))
}

pub fn share(a: Point, b: Point, c: Point, d: Point) -> bool
    requires { OnSheet a × OnSheet b × OnSheet c × OnSheet d }
    ensures { result ≡ share a b c d }
{
    boxes_overlap(a, b, c, d) && !both_aside(a, b, c, d) && !both_aside(c, d, a, b)
}
