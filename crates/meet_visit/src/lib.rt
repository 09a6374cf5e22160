// One visit of MEET: it reads a row of each line and dismisses the pair, tests two segments, or says that a node is
// halved. `visit` takes the rows of a pair, which are good, and does what the visit of `rules` does.
#![tactic(auto)]

ghost use Rattle.std.specs.Prelude.{◌≡◌, not, ◌&&◌, ◌<◌, T};
ghost use Rattle.rules.specs.Sheet.{most};
ghost use Rattle.rules.specs.Tree.{row_at};
ghost use Rattle.rules.specs.Questions.{leaf};
ghost use Rattle.limits.specs.Small.{OnSheet};
ghost use Rattle.meet_visit.specs.Pairs.{HasSplit, Read, PairStands};
ghost use Rattle.meet_visit.specs.Pairs.{TellsNode, node_in, pair_in};
ghost use Rattle.meet_visit.specs.Steps.{tested, opened, compared};

use apart::segments::share;
use apart::strips::apart;
use line::point_at;
use row::{row_at, split_of};
use rules::{Node, Pair, Point, Row};

// What is asked of a line: its points and its table.
#[derive(Clone, Copy)]
pub struct Tree<'a> {
    pub points: &'a [i64],
    pub table: &'a [i64],
}

// Both lines. A walk hands them on by one reference.
#[derive(Clone, Copy)]
pub struct Lines<'a> {
    pub a: Tree<'a>,
    pub b: Tree<'a>,
}

// The sides of a pair: what is line A's, and what is line B's.
#[derive(Clone, Copy)]
pub enum Side {
    OfA,
    OfB,
}

// The rows of a pair's nodes, by which a walk hands a pair on: what a pair is stands in its rows.
#[derive(Clone, Copy)]
pub struct Rows {
    pub a: usize,
    pub b: usize,
}

// What one visit does: a yes, nothing shared, or the node with more segments is halved.
#[derive(Clone, Copy)]
pub enum Does {
    Finishes,
    Passes,
    Halves,
}

// The node that is halved, and its split.
#[derive(Clone, Copy)]
pub enum Step {
    HalveA(usize),
    HalveB(usize),
}

// The node that a good row tells of.
fn node_at(table: &[i64], row: usize) -> Node
    requires { TellsNode table.now row }
    ensures { result ≡ node_in table.now row }
{
    let r = row_at(table, row);
    Node {
        row,
        first: r.first as usize,
        last: r.last as usize,
    }
}

// The pair that good rows tell of.
pub fn pair_at(table_a: &[i64], table_b: &[i64], rows: Rows) -> Pair
    requires { TellsNode table_a.now rows.a × TellsNode table_b.now rows.b }
    ensures { result ≡ pair_in table_a.now table_b.now rows }
{
    let a = node_at(table_a, rows.a);
    let b = node_at(table_b, rows.b);
    Pair { a, b }
}

// The node with more segments splits, A on a tie.
pub fn open_larger(row_a: Row, row_b: Row, pair: Pair) -> Step
    requires has_split { HasSplit row_a pair.a × HasSplit row_b pair.b }
    requires t { T (not (leaf pair.a && leaf pair.b)) }
    ensures { result ≡ opened row_a row_b pair }
{
    let a = pair.a;
    let b = pair.b;
    if b.last - b.first <= a.last - a.first {
        return Step::HalveA(split_of(row_a));
    }
    Step::HalveB(split_of(row_b))
}

fn both_leaves(a: Node, b: Node) -> bool
    requires { (a.first < most) × (b.first < most) }
    ensures { result ≡ leaf a && leaf b }
{
    a.last <= a.first + 1 && b.last <= b.first + 1
}

// Two leaves get the exact test.
fn test(a: Point, b: Point, c: Point, d: Point) -> Does
    requires { OnSheet a × OnSheet b × OnSheet c × OnSheet d }
    ensures { result ≡ tested a b c d }
{
    if share(a, b, c, d) {
        return Does::Finishes;
    }
    Does::Passes
}

// What is done with two good rows.
fn compare(points_a: &[i64], row_a: Row, points_b: &[i64], row_b: Row, pair: Pair) -> Does
    requires { Read points_a.now row_a pair.a × Read points_b.now row_b pair.b }
    ensures { result ≡ compared points_a.now row_a points_b.now row_b pair }
{
    let a = pair.a;
    let b = pair.b;
    let start_a = point_at(points_a, a.first);
    let end_a = point_at(points_a, a.last);
    let start_b = point_at(points_b, b.first);
    let end_b = point_at(points_b, b.last);
    if apart(row_a, start_a, end_a, row_b, start_b, end_b) {
        return Does::Passes;
    }
    if both_leaves(a, b) {
        return test(start_a, end_a, start_b, end_b);
    }
    Does::Halves
}

// One visit of a pair whose rows are known to be good. What it works with is gone when a half is walked from: it takes
// no room on the stack of the walk.
pub fn visit(lines: &Lines, rows: Rows) -> Does
    requires { PairStands lines.now.a.points.now lines.now.a.table.now
        lines.now.b.points.now lines.now.b.table.now
        (pair_in lines.now.a.table.now lines.now.b.table.now rows) }
    ensures { result
        ≡ compared lines.now.a.points.now (row_at lines.now.a.table.now rows.a)
        lines.now.b.points.now (row_at lines.now.b.table.now rows.b)
        (pair_in lines.now.a.table.now lines.now.b.table.now rows) }
{
    let pair = pair_at(lines.a.table, lines.b.table, rows);
    let a = pair.a;
    let b = pair.b;
    let row_a = row_at(lines.a.table, a.row);
    let row_b = row_at(lines.b.table, b.row);
    compare(lines.a.points, row_a, lines.b.points, row_b, pair)
}
