// Whether two nodes are dismissed by their boxes and strips alone.
ghost use Rattle.std.specs.Prelude.{◌≡◌};
ghost use Rattle.rules.specs.Plane.{direction, t_at};
ghost use Rattle.rules.specs.Questions.{boxes_apart, beyond_corners, strip_apart, apart};
ghost use Rattle.limits.specs.Small.{OnSheet, Small};
ghost use Rattle.apart.specs.Placed.{BoxOnSheet, Placed};
ghost use Rattle.apart.specs.Turned.{turned};

use line::direction;
use rules::{Point, Row};

pub fn boxes_apart(row_a: Row, row_b: Row) -> bool
    requires { BoxOnSheet row_a × BoxOnSheet row_b }
    ensures { result ≡ boxes_apart row_a row_b }
{
    row_a.xmax < row_b.xmin
        || row_b.xmax < row_a.xmin
        || row_a.ymax < row_b.ymin
        || row_b.ymax < row_a.ymin
}

// u turned to the left by a right angle: c along u is t along it.
fn turned(u: Point) -> Point
    requires { Small u }
    ensures { result ≡ turned u }
{
    Point { x: -u.y, y: u.x }
}

// Whether t along v is below lo at all four corners of the other node's box, or above hi at all four. Its least and
// greatest there are those of its two parts together, so nothing branches on the corners.
fn beyond(v: Point, s: Point, other: Row, lo: i64, hi: i64) -> bool
    requires { OnSheet s × Small v × BoxOnSheet other }
    ensures { result ≡ beyond_corners (t_at s v) lo hi other }
{
    let west = v.x * (other.xmin - s.x);
    let east = v.x * (other.xmax - s.x);
    let south = v.y * (other.ymin - s.y);
    let north = v.y * (other.ymax - s.y);
    west.max(east) + south.max(north) < lo || hi < west.min(east) + south.min(north)
}

// Whether c, or t, of a node says that the other node's box is beyond its strip.
fn strip_apart(row: Row, s: Point, u: Point, other: Row) -> bool
    requires { OnSheet s × Small u × BoxOnSheet other }
    ensures { result ≡ strip_apart row s u other }
{
    let v = turned(u);
    beyond(v, s, other, row.cmin, row.cmax) || beyond(u, s, other, row.tmin, row.tmax)
}

// Whether the nodes are dismissed, by their rows and the points that they begin and end with. A heading is found where
// it is asked for: boxes that are apart need none.
pub fn apart(
    row_a: Row,
    start_a: Point,
    end_a: Point,
    row_b: Row,
    start_b: Point,
    end_b: Point,
) -> bool
    requires { Placed row_a start_a end_a × Placed row_b start_b end_b }
    ensures { result ≡ apart row_a start_a (direction start_a end_a)
        row_b start_b (direction start_b end_b) }
{
    boxes_apart(row_a, row_b)
        || strip_apart(row_a, start_a, direction(start_a, end_a), row_b)
        || strip_apart(row_b, start_b, direction(start_b, end_b), row_a)
}
