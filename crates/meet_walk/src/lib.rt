// The walk of MEET from a pair of nodes on. Of a pair only one row is new, so a row is checked before the walk goes to
// it. `walk` takes the rows of a pair, which are good, and comes to what the written walk of `rules` comes to from
// there; `open` goes on from a pair whose visit was made and halves a node.
#![tactic(auto)]

ghost use Rattle.std.specs.Prelude.{◌≡◌, ◌+◌, ◌<◌, T};
ghost use Rattle.rules.specs.Sheet.{point, on_sheet};
ghost use Rattle.rules.specs.Tree.{most_rows};
ghost use Rattle.rules.specs.Walk.{next};
ghost use Rattle.row.specs.Stands.{Stands, EndsOn};
ghost use Rattle.ending.specs.Ending.{due};
ghost use Rattle.meet_visit.specs.Pairs.{good_at, PairStands, pair_in};
ghost use Rattle.meet_visit.specs.Sides.{on, node_on};
ghost use Rattle.meet_walk.specs.Walks.{HalvedOn, Opens, Walks, WalksOn, bad_on, rows_with};

use ending::{ENDED, EVEN, SPENT, bad_row_due, bad_second_due, pack, stopped, tally_in};
use meet_visit::{Does, Lines, Rows, Side, Step, Tree, open_larger, pair_at, visit};
use row::{good_between, good_from, row_at};
use rules::{Node, Pair, Tally};

// The line on one side, and the node of a pair.
fn tree_on<'a, 'b>(side: Side, lines: &'a Lines<'b>) -> &'a Tree<'b>
    ensures { (result.now.points.now ≡ on side lines.now.a.points.now lines.now.b.points.now)
        × (result.now.table.now ≡ on side lines.now.a.table.now lines.now.b.table.now) }
{
    match side {
        Side::OfA => &lines.a,
        Side::OfB => &lines.b,
    }
}

fn node_on(side: Side, pair: Pair) -> Node
    ensures { result ≡ node_on side pair }
{
    match side {
        Side::OfA => pair.a,
        Side::OfB => pair.b,
    }
}

// The rows of a pair, with another one on that side.
fn rows_with(side: Side, pair: Pair, row: usize) -> Rows
    ensures { result ≡ rows_with side pair row }
{
    let a = pair.a;
    let b = pair.b;
    match side {
        Side::OfA => Rows { a: row, b: b.row },
        Side::OfB => Rows { a: a.row, b: row },
    }
}

// A visit is due to a bad row of the line on that side.
fn bad_row_on(side: Side, tally: Tally, row: usize) -> u64
    requires { row < most_rows }
    ensures { result ≡ due (next tally) (bad_on side + row) }
{
    match side {
        Side::OfA => bad_row_due(tally, row),
        Side::OfB => bad_second_due(tally, row),
    }
}

// Whether the row of a left half is good: it begins where its parent begins, on the sheet. Inlined, as the next one,
// for a half would go through memory.
#[inline(always)]
fn left_good(tree: &Tree, half: Node) -> bool
    requires stands { Stands tree.now.points.now tree.now.table.now half }
    requires t { T (on_sheet (point tree.now.points.now half.first)) }
    ensures { result ≡ good_at tree.now.points.now tree.now.table.now half }
{
    good_from(
        tree.points,
        row_at(tree.table, half.row),
        half.first,
        half.last,
    )
}

// Whether the row of a right half is good: it begins and ends on the sheet.
#[inline(always)]
fn right_good(tree: &Tree, half: Node) -> bool
    requires stands { Stands tree.now.points.now tree.now.table.now half }
    requires ends_on { EndsOn tree.now.points.now half }
    ensures { result ≡ good_at tree.now.points.now tree.now.table.now half }
{
    good_between(
        tree.points,
        row_at(tree.table, half.row),
        half.first,
        half.last,
    )
}

// The walk goes on in the halves of the node on one side, the left half first; a bad row of a half ends it. `open` has
// it inlined for each side, and it has `walk`: a level of the walk is one frame of the stack, and no side is asked
// there.
#[cycle(halve_open_walk)]
#[inline(always)]
fn halve(side: Side, lines: &Lines, pair: Pair, split: usize, counted: Tally) -> u64
    requires { HalvedOn side lines.now.a.points.now lines.now.a.table.now
        lines.now.b.points.now lines.now.b.table.now pair split }
    ensures { WalksOn lines.now.a.points.now lines.now.a.table.now
        lines.now.b.points.now lines.now.b.table.now pair counted result }
{
    let node = node_on(side, pair);
    let tree = tree_on(side, lines);
    let left = Node {
        row: node.row + 1,
        last: split,
        ..node
    };
    if !left_good(tree, left) {
        return bad_row_on(side, counted, left.row);
    }
    let ending = walk(lines, rows_with(side, pair, left.row), counted);
    if stopped(ending) {
        return ending;
    }
    let next = tally_in(counted.allowance, ending);
    let right = Node {
        row: node.row + 2 * (split - node.first),
        first: split,
        ..node
    };
    if !right_good(tree, right) {
        return bad_row_on(side, next, right.row);
    }
    walk(lines, rows_with(side, pair, right.row), next)
}

// The walk goes on from a pair whose visit was made and halves the node with more segments.
#[cycle(halve_open_walk)]
pub fn open(lines: &Lines, rows: Rows, counted: Tally) -> u64
    requires { Opens lines.now.a.points.now lines.now.a.table.now
        lines.now.b.points.now lines.now.b.table.now
        (pair_in lines.now.a.table.now lines.now.b.table.now rows) }
    ensures { WalksOn lines.now.a.points.now lines.now.a.table.now
        lines.now.b.points.now lines.now.b.table.now
        (pair_in lines.now.a.table.now lines.now.b.table.now rows) counted result }
{
    let pair = pair_at(lines.a.table, lines.b.table, rows);
    let row_a = row_at(lines.a.table, rows.a);
    let row_b = row_at(lines.b.table, rows.b);
    match open_larger(row_a, row_b, pair) {
        Step::HalveA(split) => halve(Side::OfA, lines, pair, split, counted),
        Step::HalveB(split) => halve(Side::OfB, lines, pair, split, counted),
    }
}

// The walk from a pair on; a yes ends it. Each visit takes the tally and gives the next one back. The visit is a call
// of its own, so that only what a pair is stays on the stack while its halves are walked.
#[cycle(halve_open_walk)]
#[inline(always)]
fn walk(lines: &Lines, rows: Rows, tally: Tally) -> u64
    requires { PairStands lines.now.a.points.now lines.now.a.table.now
        lines.now.b.points.now lines.now.b.table.now
        (pair_in lines.now.a.table.now lines.now.b.table.now rows) }
    ensures { Walks lines.now.a.points.now lines.now.a.table.now
        lines.now.b.points.now lines.now.b.table.now
        (pair_in lines.now.a.table.now lines.now.b.table.now rows) tally result }
{
    let Some(counted) = tally.visit() else {
        return pack(0, SPENT);
    };
    match visit(lines, rows) {
        Does::Finishes => pack(counted.visits, ENDED),
        Does::Passes => pack(counted.visits, EVEN),
        Does::Halves => open(lines, rows, counted),
    }
}
