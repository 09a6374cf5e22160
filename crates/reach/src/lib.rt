// How far a point is from a strip and from a segment, by the squared comparison of `large`. The reach is the distance
// squared. Every function says its result by a definition of `rules`, for all points on the sheet.
#![tactic(auto)]

ghost use Rattle.std.specs.Prelude.{◌≡◌, ℤ, pos, ◌*ℤ◌, ◌≤ℤ◌};
ghost use Rattle.std.specs.Int.Signed.{lt_z};
ghost use Rattle.integers.specs.Range.{Abs≤};
ghost use Rattle.rules.specs.Plane.{step, direction, size²};
ghost use Rattle.rules.specs.Plain.{within};
ghost use Rattle.rules.specs.Sheet.{distance_fits};
ghost use Rattle.rules.specs.Questions.{shortfall, far_from};
ghost use Rattle.limits.specs.Small.{OnSheet, Small, widest};
ghost use Rattle.visits.specs.Nodes.{HoldsStart};
ghost use Rattle.reach.specs.Bounds.{ReachFits};

use integers::magnitude;
use large::farther;
use limits::FARTHEST;
use rules::{Point, Row};

// Refusal 7.
pub fn distance_fits(d: i64) -> bool
    ensures { result ≡ distance_fits d }
{
    (0..=FARTHEST).contains(&d)
}

// Whether b is more than the distance away from a.
fn apart(a: Point, b: Point, reach: u64) -> bool
    requires { OnSheet a × OnSheet b × ReachFits reach }
    ensures { result ≡ lt_z (pos reach) (size² (step a b)) }
{
    let u = line::step(a, b);
    farther(magnitude(u.x), magnitude(u.y), reach, 1)
}

// Whether the segment a to b is within the distance of z: by its start, its end, or along it.
pub fn within(z: Point, a: Point, b: Point, reach: u64) -> bool
    requires { OnSheet z × OnSheet a × OnSheet b × ReachFits reach }
    ensures { (D : ℤ) → pos reach ≡ D *ℤ D → result ≡ within z a b D }
{
    let u = line::step(a, b);
    let t = line::t_at(a, u, z);
    if t <= 0 {
        return !apart(a, z, reach);
    }
    let v = line::size2(u);
    if v <= t {
        return !apart(b, z, reach);
    }
    !farther(magnitude(line::c_at(a, u, z)), 0, reach, v as u64)
}

// How far v lies outside the range lo to hi, which holds 0. It is compared first and subtracted then, so that nothing
// wraps, whatever the range.
fn shortfall(lo: i64, hi: i64, v: i64) -> u64
    requires { (lo ≤ℤ pos 0) × (pos 0 ≤ℤ hi) × Abs≤ widest v }
    ensures { pos result ≡ shortfall lo hi v }
{
    if v < lo {
        return (lo - v) as u64;
    }
    if hi < v {
        return (v - hi) as u64;
    }
    0
}

// Whether the strip of a node with the direction u is more than the distance away from z.
pub fn far_along(r: Row, s: Point, u: Point, z: Point, reach: u64) -> bool
    requires { HoldsStart r × OnSheet s × Small u × OnSheet z × ReachFits reach }
    ensures { (D : ℤ) → pos reach ≡ D *ℤ D → result ≡ far_from r s u z D }
{
    let gc = shortfall(r.cmin, r.cmax, line::c_at(s, u, z));
    let gt = shortfall(r.tmin, r.tmax, line::t_at(s, u, z));
    farther(gc, gt, reach, line::size2(u) as u64)
}

// The same of a node from a to b. Only a closed run asks for another direction than its step, so it is a branch.
#[tactic(auto, unfolding(rules::specs::Plane::direction))]
pub fn far_from(r: Row, a: Point, b: Point, z: Point, reach: u64) -> bool
    requires { HoldsStart r × OnSheet a × OnSheet b × OnSheet z × ReachFits reach }
    ensures { (D : ℤ) → pos reach ≡ D *ℤ D → result ≡ far_from r a (direction a b) z D }
{
    if a == b {
        return far_along(r, a, Point { x: 1, y: 0 }, z, reach);
    }
    far_along(r, a, line::step(a, b), z, reach)
}
