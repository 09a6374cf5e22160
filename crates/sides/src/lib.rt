// The geometry of one visit of IN: whether a point is on a segment, whether the segment crosses the ray to its right,
// and whether it is clear of a row's box and strip. Every function says its result by a definition of `rules`, for any
// row and points of the sheet.
#![tactic(auto)]

ghost use Rattle.std.specs.Prelude.{◌≡◌, ◌&&◌, pos};
ghost use Rattle.std.specs.Int.Signed.{lt_z};
ghost use Rattle.rules.specs.Plane.{direction};
ghost use Rattle.rules.specs.Plain.{range_holds, on_segment, low_high, side_of, crosses};
ghost use Rattle.rules.specs.Questions.{outside, clear_of};
ghost use Rattle.limits.specs.Small.{OnSheet, Small};

use line::{c_at, direction, holds, step, t_at};
use rules::{Point, Row};

// Whether v lies between a and b, whichever is the lesser.
fn range_holds(a: i64, b: i64, v: i64) -> bool
    ensures { result ≡ range_holds a b v }
{
    holds(a.min(b), a.max(b), v)
}

// Whether z is on the segment a to b.
pub fn on_segment(z: Point, a: Point, b: Point) -> bool
    requires { OnSheet z × OnSheet a × OnSheet b }
    ensures { result ≡ on_segment z a b }
{
    range_holds(a.x, b.x, z.x) && range_holds(a.y, b.y, z.y) && c_at(a, step(a, b), z) == 0
}

// Whether l is not above z and h is above it.
fn low_high(z: Point, l: Point, h: Point) -> bool
    ensures { result ≡ low_high z l h }
{
    l.y <= z.y && z.y < h.y
}

// Above 0 where z is to the left of the segment from its low end to its high end: c of z.
fn side_of(z: Point, l: Point, h: Point) -> i64
    requires { OnSheet z × OnSheet l × OnSheet h }
    ensures { result ≡ side_of z l h }
{
    c_at(l, step(l, h), z)
}

// Whether the segment with low end l and high end h crosses the ray to the right of z.
fn rises(z: Point, l: Point, h: Point) -> bool
    requires { OnSheet z × OnSheet l × OnSheet h }
    ensures { result ≡ low_high z l h && lt_z (pos 0) (side_of z l h) }
{
    low_high(z, l, h) && 0 < side_of(z, l, h)
}

// Whether the segment a to b crosses the ray to the right of z. Only its lower end can be low: it is chosen first, so
// that no branch depends on the way the segment goes.
pub fn crosses(z: Point, a: Point, b: Point) -> bool
    requires { OnSheet z × OnSheet a × OnSheet b }
    ensures { result ≡ crosses z a b }
{
    let falls = b.y < a.y;
    let l = if falls { b } else { a };
    let h = if falls { a } else { b };
    rises(z, l, h)
}

// Whether v lies strictly outside lo to hi.
fn outside(lo: i64, hi: i64, v: i64) -> bool
    ensures { result ≡ outside lo hi v }
{
    v < lo || hi < v
}

// Whether z is strictly outside the box or the strip of a row, whose node starts at s and heads along u.
pub fn clear_along(r: Row, s: Point, u: Point, z: Point) -> bool
    requires { OnSheet s × Small u × OnSheet z }
    ensures { result ≡ clear_of r s u z }
{
    outside(r.xmin, r.xmax, z.x)
        || outside(r.ymin, r.ymax, z.y)
        || outside(r.cmin, r.cmax, c_at(s, u, z))
        || outside(r.tmin, r.tmax, t_at(s, u, z))
}

// The same of a node from a to b.
pub fn clear_of(r: Row, a: Point, b: Point, z: Point) -> bool
    requires { OnSheet a × OnSheet b × OnSheet z }
    ensures { result ≡ clear_of r a (direction a b) z }
{
    clear_along(r, a, direction(a, b), z)
}
