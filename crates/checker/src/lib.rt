// The checker of tables, whoever wrote them: each row is good, and its strip and box hold every point of its run. It
// only reads, and stops at the first row at fault.
#![tactic(auto)]

ghost use Rattle.std.specs.Prelude.{◌≡◌, ◌&&◌, ℕ, ◌+◌, ◌≤◌, ◌<◌};
ghost use Rattle.std.proofs.Math.Option.{some};
ghost use Rattle.std.specs.Int.Signed.{le_z};
ghost use Rattle.rules.specs.declared.Line.TheVariants.{LineA};
ghost use Rattle.rules.specs.declared.Refusal.{Refusal};
ghost use Rattle.rules.specs.Plane.{step, size², c_at, t_at};
ghost use Rattle.rules.specs.Sheet.{segments_of};
ghost use Rattle.rules.specs.Tree.{row_at, most_rows};
ghost use Rattle.rules.specs.Reply.{checked_refusal};
ghost use Rattle.rules.specs.Build.{strip_holds, box_holds, row_holds};
ghost use Rattle.rules.specs.Check.{read_from, row_fault, fault_from, check_refusal};
ghost use Rattle.limits.specs.Small.{OnSheet, Small};
ghost use Rattle.visits.specs.Nodes.{HoldsStart};
ghost use Rattle.row.specs.Stands.{Stands, node_at};
ghost use Rattle.run.specs.Run.{AllOnSheet};
ghost use Rattle.checker.specs.Found.{past, found_fault};

use line::{c_at, direction, early, holds, point_at, size2, step, t_at};
use row::{good_between, row_at, split_of};
use rules::{Line, Point, Refusal, Row};

// Past the number of every refusal.
const PAST: usize = 32;

fn box_holds(r: Row, p: Point) -> bool
    ensures { result ≡ box_holds r p }
{
    holds(r.xmin, r.xmax, p.x) & holds(r.ymin, r.ymax, p.y)
}

// Whether a row, whose strip holds 0, holds both ends of its run: their c is 0, and so is the t of the start; the t of
// the end is the square of the step.
fn holds_ends(r: Row, s: Point, e: Point) -> bool
    requires { OnSheet s × OnSheet e }
    ensures { result ≡ le_z (size² (step s e)) r.tmax && box_holds r s && box_holds r e }
{
    (size2(step(s, e)) <= r.tmax) & box_holds(r, s) & box_holds(r, e)
}

// Whether a row holds a point, with s and u of its run.
fn holds_point(r: Row, s: Point, u: Point, p: Point) -> bool
    requires { OnSheet s × Small u × OnSheet p }
    ensures { result ≡ strip_holds r (c_at s u p) (t_at s u p) && box_holds r p }
{
    holds(r.cmin, r.cmax, c_at(s, u, p)) & holds(r.tmin, r.tmax, t_at(s, u, p)) & box_holds(r, p)
}

// Whether a row, whose strip holds 0, holds each point from first to last: the ends, and then the points between.
fn holds_run(points: &[i64], r: Row, first: usize, last: usize) -> bool
    requires { (first < last) × (last ≤ segments_of points.now) × AllOnSheet points.now × HoldsStart r }
    ensures { result ≡ row_holds points.now r first last }
{
    let s = point_at(points, first);
    let e = point_at(points, last);
    if !holds_ends(r, s, e) {
        return false;
    }
    let u = direction(s, e);
    for i in first + 1..last {
        if !holds_point(r, s, u, point_at(points, i)) {
            return false;
        }
    }
    true
}

// A fault as one number. A Result, with `?` at each level, was tried: it comes back through memory, and the right half
// keeps a frame of its own. So a check took some 4 ns a segment more, and 128 bytes of stack a level, where the C
// header says 96.
fn found(number: usize, row: usize) -> usize
    requires { (0 < number) × (number < past) × (row < most_rows) }
    ensures { found_fault result
        ≡ some (record { number = number; line = LineA; place = row; visits = 0 }) }
{
    PAST * row + number
}

// The fault of one row: it is not good for the range first to last, or it leaves out a point of it. 0 is none.
fn check_row(points: &&[i64], table: &&[i64], row: usize, first: usize, last: usize) -> usize
    requires { Stands points.now.now table.now.now (node_at row first last) × AllOnSheet points.now.now }
    ensures { found_fault result ≡ row_fault points.now.now (row_at table.now.now row)
        (node_at row first last) }
{
    let r = row_at(*table, row);
    if !good_between(*points, r, first, last) {
        return found(21, row);
    }
    if !holds_run(*points, r, first, last) {
        return found(22, row);
    }
    0
}

// The first fault of a node's rows: its own, then those of its left half, then those of its right half. A row is
// checked in two places: so the compiler keeps `check_row` a function of its own, and what that works with is off the
// stack before the halves are checked.
fn check_node(points: &&[i64], table: &&[i64], row: usize, first: usize, last: usize) -> usize
    requires { Stands points.now.now table.now.now (node_at row first last) × AllOnSheet points.now.now }
    ensures { (f : ℕ) → last ≤ f + first → found_fault result
        ≡ fault_from (read_from table.now.now) f points.now.now (node_at row first last) }
{
    if last <= first + 1 {
        return check_row(points, table, row, first, last);
    }
    let own = check_row(points, table, row, first, last);
    if own != 0 {
        return own;
    }
    let split = split_of(row_at(*table, row));
    let left = check_node(points, table, row + 1, first, split);
    if left != 0 {
        return left;
    }
    check_node(points, table, row + 2 * (split - first), split, last)
}

pub fn check(points: &[i64], table: &[i64]) -> Result<(), Refusal>
    ensures { checked_refusal result ≡ check_refusal points.now table.now }
{
    build_checks::check(points, table.len())?;
    let last = points.len() / 2 - 1;
    let at = check_node(&points, &table, 0, 0, last);
    if at == 0 {
        return Ok(());
    }
    Err(Refusal {
        place: at / PAST,
        ..early((at % PAST) as u32, Line::LineA)
    })
}
