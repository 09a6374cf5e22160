// The walk of a question about a point and a line, NEAR or IN, one visit at a time: what a visit does and the walk from
// node to node are the same, and the question brings its tests. A walk ends as the written one of `rules`, after as
// many visits, for all numbers that the slices can hold.
#![tactic(auto)]

ghost use Rattle.std.specs.Prelude.{◌≡◌, ◌<◌};
ghost use Rattle.rules.specs.Plane.{direction};
ghost use Rattle.rules.specs.Sheet.{most, segments_of};
ghost use Rattle.rules.specs.Rows.{ends_good};
ghost use Rattle.limits.specs.Small.{OnSheet, Small};
ghost use Rattle.visits.specs.Fine.{LengthsFine};
ghost use Rattle.visits.specs.Nodes.{HoldsStart};
ghost use Rattle.row.specs.Stands.{Stands, EndsOn, node_at};
ghost use Rattle.walk.specs.Tests.{Counting, Tests};
ghost use Rattle.walk.specs.Steps.{leaf_step, inner_step, Visits};
ghost use Rattle.walk.specs.Walks.{AsksLine, Walks, Comes};

use ending::{ENDED, SPENT, bad_row, bad_row_due, odd_in, over, pack, stopped, tally_in};
use line::{on_sheet_at, point_at, step};
use row::{ends_on_sheet, frame_good, leaf_good, row_at, split_of, splits_inside};
use rules::{Node, Point, Row, Tally};

// What a question asks of a node, from a to b.
pub trait Question {
    ghost Count: { Type 0 };

    ghost counting: { Counting Count };

    ghost tests: { Self → Tests };

    // Whether the node is dismissed, by its row.
    fn dismisses(&self, r: Row, a: Point, b: Point) -> bool
        requires { HoldsStart r × OnSheet a × OnSheet b }
        ensures { result ≡ (tests self.now).dismisses r a (direction a b) };

    // The same of a node that is known to head along u.
    fn dismisses_along(&self, r: Row, a: Point, u: Point) -> bool
        requires { HoldsStart r × OnSheet a × Small u }
        ensures { result ≡ (tests self.now).dismisses r a u };

    // The exact test of a segment: it ends the walk.
    fn meets(&self, a: Point, b: Point) -> bool
        requires { OnSheet a × OnSheet b }
        ensures { result ≡ (tests self.now).meets a b };

    // Whether the chord counts, of a node that is passed.
    fn crosses(&self, a: Point, b: Point) -> bool
        requires { OnSheet a × OnSheet b }
        ensures { result ≡ (tests self.now).crosses a b };
}

// What one visit does: refused by 10, a yes or on-edge, passed with a crossing or without, or the halves at a split.
#[derive(Drop)]
pub enum Step {
    Bad,
    Finish,
    Pass(bool),
    Halve(usize),
}

// A leaf whose frame is good: its points differ, so it heads along its step.
fn leaf_step<Q: Question>(question: &Q, r: Row, a: Point, b: Point) -> Step
    requires { HoldsStart r × OnSheet a × OnSheet b }
    ensures { result ≡ leaf_step (Q.tests question.now) r a b }
{
    if !leaf_good(r, a, b) {
        return Step::Bad;
    }
    if !question.dismisses_along(r, a, step(a, b)) && question.meets(a, b) {
        return Step::Finish;
    }
    Step::Pass(question.crosses(a, b))
}

// A node of more segments whose frame is good.
fn inner_step<Q: Question>(
    question: &Q,
    r: Row,
    first: usize,
    last: usize,
    a: Point,
    b: Point,
) -> Step
    requires first_lt_last { (first < last) × (last < most) }
    requires holds_start { HoldsStart r × OnSheet a × OnSheet b }
    ensures { result ≡ inner_step (Q.tests question.now) r first last a b }
{
    if !splits_inside(r, first, last) {
        return Step::Bad;
    }
    if question.dismisses(r, a, b) {
        return Step::Pass(question.crosses(a, b));
    }
    Step::Halve(split_of(r))
}

// A visit of a node whose ends are known to be on the sheet: it reads one row and checks it, and dismisses the node,
// tests its one segment or halves it.
pub fn visit<Q: Question>(question: &Q, points: &[i64], table: &[i64], node: Node) -> Step
    requires { Stands points.now table.now node × EndsOn points.now node }
    ensures { Visits (Q.tests question.now) points.now table.now node result }
{
    let first = node.first;
    let last = node.last;
    let r = row_at(table, node.row);
    let a = point_at(points, first);
    let b = point_at(points, last);
    if !frame_good(r, first, last) {
        return Step::Bad;
    }
    if last <= first + 1 {
        return leaf_step(question, r, a, b);
    }
    inner_step(question, r, first, last, a, b)
}

// The walk of a node, with whether the count so far is odd, and the tally: the left half, then the right half with what
// the left half came to. A split off the sheet makes the left half's row bad, so every node that is visited has its
// ends on the sheet. Plain numbers and thin references stay in registers: behind one reference to question, points and
// table IN's walk took 8% longer.
fn walk<Q: Question>(
    question: &Q,
    points: &&[i64],
    table: &&[i64],
    row: usize,
    first: usize,
    last: usize,
    odd: bool,
    tally: Tally,
) -> u64
    requires stands { Stands points.now.now table.now.now (node_at row first last) }
    requires ends { EndsOn points.now.now (node_at row first last) }
    ensures { Walks Q.counting (Q.tests question.now) points.now.now table.now.now
        (node_at row first last) odd tally result }
{
    let Some(counted) = tally.visit() else {
        return pack(0, SPENT);
    };
    match visit(question, *points, *table, Node { row, first, last }) {
        Step::Bad => bad_row(counted.visits, row),
        Step::Finish => pack(counted.visits, ENDED),
        Step::Pass(crossed) => over(counted.visits, odd ^ crossed),
        Step::Halve(split) => {
            let next_row = row + 1;
            if !on_sheet_at(*points, split) {
                return bad_row_due(counted, next_row);
            }
            let left = walk(
                question, points, table, next_row, first, split, odd, counted,
            );
            if stopped(left) {
                return left;
            }
            let right = row + 2 * (split - first);
            let next_odd = odd_in(left);
            let next = tally_in(counted.allowance, left);
            walk(question, points, table, right, split, last, next_odd, next)
        }
    }
}

// The walk from the root of a line that is known to begin and end on the sheet.
pub fn walk_line<Q: Question>(question: &Q, points: &&[i64], table: &&[i64], tally: Tally) -> u64
    requires { AsksLine points.now.now table.now.now }
    ensures { Comes Q.counting (Q.tests question.now) points.now.now table.now.now tally result }
{
    let last = points.len() / 2 - 1;
    walk(question, points, table, 0, 0, last, false, tally)
}

// The same, wherever the line begins and ends: off the sheet its root's row is bad.
pub fn walk_any_line<Q: Question>(
    question: &Q,
    points: &&[i64],
    table: &&[i64],
    tally: Tally,
) -> u64
    requires { LengthsFine points.now.now table.now.now }
    ensures { Comes Q.counting (Q.tests question.now) points.now.now table.now.now tally result }
{
    if !ends_on_sheet(*points) {
        return bad_row_due(tally, 0);
    }
    walk_line(question, points, table, tally)
}
