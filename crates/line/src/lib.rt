// Points as the machine reads them: a point out of a slice, steps, c and t, and the lengths that refusals 1, 2, 3 and 6
// ask for. Every function says its result by a definition of `rules`.
#![tactic(auto)]

ghost use Rattle.std.specs.Prelude.{◌≡◌, ◌+◌, ◌*◌, ◌<◌, ◌≤◌, OnOk, ◌+ℤ◌, ◌-ℤ◌, ◌*ℤ◌, length};
ghost use Rattle.rules.specs.Plane.{step, direction, c_at, t_at, size²};
ghost use Rattle.rules.specs.Sheet.{fewest, most, point, points_of, in_sheet, on_sheet};
ghost use Rattle.rules.specs.Reply.{checked_refusal, first_refusal};
ghost use Rattle.rules.specs.Rows.{point_checks, length_checks};
ghost use Rattle.rules.specs.Build.{holds_number};
ghost use Rattle.limits.specs.Small.{OnSheet, Small};

use limits::{FEWEST, LIMIT, MOST, WIDTH};
use rules::{Line, Point, Refusal};

// Whether v lies between lo and hi.
pub fn holds(lo: i64, hi: i64, v: i64) -> bool
    ensures { result ≡ holds_number lo hi v }
{
    (lo..=hi).contains(&v)
}

// Point i of a line.
pub fn point_at(points: &[i64], i: usize) -> Point
    requires { 2 * i + 1 < length points.now }
    ensures { result ≡ point points.now i }
{
    Point {
        x: points[2 * i],
        y: points[2 * i + 1],
    }
}

#[tactic(auto, unfolding(rules::specs::Sheet::between))]
pub fn in_sheet(v: i64) -> bool
    ensures { result ≡ in_sheet v }
{
    (-LIMIT..=LIMIT).contains(&v)
}

pub fn on_sheet(p: Point) -> bool
    ensures { result ≡ on_sheet p }
{
    in_sheet(p.x) & in_sheet(p.y)
}

// Whether point i of a line is on the sheet.
pub fn on_sheet_at(points: &[i64], i: usize) -> bool
    requires { 2 * i + 1 < length points.now }
    ensures { result ≡ on_sheet (point points.now i) }
{
    on_sheet(point_at(points, i))
}

// The step from a to b.
pub fn step(a: Point, b: Point) -> Point
    requires { OnSheet a × OnSheet b }
    ensures { result ≡ step a b }
{
    Point {
        x: b.x - a.x,
        y: b.y - a.y,
    }
}

// The step from the first point to the last, or (1, 0) where they are equal.
#[tactic(auto, unfolding(rules::specs::Plane::direction))]
pub fn direction(a: Point, b: Point) -> Point
    requires { OnSheet a × OnSheet b }
    ensures { result ≡ direction a b }
{
    if a == b {
        return Point { x: 1, y: 0 };
    }
    step(a, b)
}

// The products of two steps: c, t and |u|^2 are made of them.
fn cross(u: Point, v: Point) -> i64
    requires { Small u × Small v }
    ensures { result ≡ u.x *ℤ v.y -ℤ u.y *ℤ v.x }
{
    u.x * v.y - u.y * v.x
}

fn dot(u: Point, v: Point) -> i64
    requires { Small u × Small v }
    ensures { result ≡ u.x *ℤ v.x +ℤ u.y *ℤ v.y }
{
    u.x * v.x + u.y * v.y
}

pub fn c_at(s: Point, u: Point, p: Point) -> i64
    requires { OnSheet s × Small u × OnSheet p }
    ensures { result ≡ c_at s u p }
{
    cross(u, step(s, p))
}

pub fn t_at(s: Point, u: Point, p: Point) -> i64
    requires { OnSheet s × Small u × OnSheet p }
    ensures { result ≡ t_at s u p }
{
    dot(u, step(s, p))
}

pub fn size2(u: Point) -> i64
    requires { Small u }
    ensures { result ≡ size² u }
{
    dot(u, u)
}

// A refusal before the walk.
pub fn early(number: u32, line: Line) -> Refusal
    ensures { result ≡ record { number = number; line = line; place = 0; visits = 0 } }
{
    Refusal {
        number,
        line,
        place: 0,
        visits: 0,
    }
}

// Refusals 1, 2 and 3 of a line's points.
pub fn check_points(line: Line, points: &[i64]) -> Result<(), Refusal>
    ensures refusal { checked_refusal result ≡ first_refusal (point_checks line points.now) }
    ensures counted { OnOk result ((fewest ≤ points_of points.now) × (points_of points.now ≤ most)) }
{
    if points.len() % 2 == 1 {
        return Err(early(1, line));
    }
    let count = points.len() / 2;
    if count < FEWEST {
        return Err(early(2, line));
    }
    if MOST < count {
        return Err(early(3, line));
    }
    Ok(())
}

// Refusals 1, 2, 3 and 6 of a line and its table.
pub fn check_lengths(line: Line, points: &[i64], table: &[i64]) -> Result<(), Refusal>
    ensures { checked_refusal result ≡ first_refusal (length_checks line points.now table.now) }
{
    check_points(line, points)?;
    if table.len() < WIDTH * (2 * (points.len() / 2 - 1) - 1) {
        return Err(early(6, line));
    }
    Ok(())
}
