// MEET: whether some segment of line A and some of line B share a point. `meet` takes any slices, and says what `rules`
// says of them: the refusals of A, then of B, else the answer of the walk from both roots.
#![tactic(auto)]

ghost use Rattle.std.specs.Prelude.{◌≡◌};
ghost use Rattle.rules.specs.Walk.{next, over, on_visit};
ghost use Rattle.rules.specs.Reply.{checked_refusal, first_refusal};
ghost use Rattle.rules.specs.Questions.{yes_or_no, meet_walk, meet_checks, meet_reply};
ghost use Rattle.visits.specs.Fine.{LengthsFine};
ghost use Rattle.meet_visit.specs.Pairs.{PairStands};
ghost use Rattle.meet.specs.Roots.{roots};

use apart::strips::boxes_apart;
use ending::{answer, bad_row_due, bad_second_due};
use line::check_lengths;
use meet_visit::{Does, Lines, Rows, Tree, visit};
use meet_walk::open;
use row::{row_at, row_good};
use rules::{Line, Refusal, Reply, Tally, Word, refuses, says};

// The answer where the first visit dismisses the pair of the roots.
fn at_once(tally: Tally) -> Reply
    ensures { result ≡ yes_or_no tally.allowance (on_visit (next tally) (λ y. over tt y)) }
{
    let Some(counted) = tally.visit() else {
        return says(Word::UNDECIDED, tally.allowance);
    };
    says(Word::NO, counted.visits)
}

// The answer from both roots, whose rows are good. The first visit is made here, and halves are walked from there on.
fn from_good_roots(lines: &Lines, fresh: Tally) -> Reply
    requires { PairStands lines.now.a.points.now lines.now.a.table.now
        lines.now.b.points.now lines.now.b.table.now
        (roots lines.now.a.points.now lines.now.b.points.now) }
    ensures { result ≡ yes_or_no fresh.allowance
        (meet_walk lines.now.a.points.now lines.now.a.table.now
        lines.now.b.points.now lines.now.b.table.now fresh) }
{
    let Some(counted) = fresh.visit() else {
        return says(Word::UNDECIDED, fresh.allowance);
    };
    let roots = Rows { a: 0, b: 0 };
    match visit(lines, roots) {
        Does::Finishes => says(Word::YES, counted.visits),
        Does::Passes => says(Word::NO, counted.visits),
        Does::Halves => answer(open(lines, roots, counted), fresh.allowance),
    }
}

// The answer of the walk from both roots, whose rows are checked first. Roots with their boxes apart, as most lines of
// a register have them, need no walk.
fn from_roots(lines: &Lines, fresh: Tally) -> Reply
    requires { LengthsFine lines.now.a.points.now lines.now.a.table.now
        × LengthsFine lines.now.b.points.now lines.now.b.table.now }
    ensures { result ≡ yes_or_no fresh.allowance
        (meet_walk lines.now.a.points.now lines.now.a.table.now
        lines.now.b.points.now lines.now.b.table.now fresh) }
{
    let last_a = lines.a.points.len() / 2 - 1;
    let last_b = lines.b.points.len() / 2 - 1;
    let r = row_at(lines.a.table, 0);
    if !row_good(lines.a.points, r, 0, last_a) {
        return answer(bad_row_due(fresh, 0), fresh.allowance);
    }
    let q = row_at(lines.b.table, 0);
    if !row_good(lines.b.points, q, 0, last_b) {
        return answer(bad_second_due(fresh, 0), fresh.allowance);
    }
    if boxes_apart(r, q) {
        return at_once(fresh);
    }
    from_good_roots(lines, fresh)
}

// Refusals 1, 2, 3 and 6 of A, then of B.
fn meet_checks(
    points_a: &[i64],
    table_a: &[i64],
    points_b: &[i64],
    table_b: &[i64],
) -> Result<(), Refusal>
    ensures { checked_refusal result
        ≡ first_refusal (meet_checks points_a.now table_a.now points_b.now table_b.now) }
{
    check_lengths(Line::LineA, points_a, table_a)?;
    check_lengths(Line::LineB, points_b, table_b)
}

// Whether the lines share a point, by at most this many visits: the checks, then the walk.
pub fn meet(
    points_a: &[i64],
    table_a: &[i64],
    points_b: &[i64],
    table_b: &[i64],
    allowance: u32,
) -> Reply
    ensures { result ≡ meet_reply points_a.now table_a.now
        points_b.now table_b.now allowance }
{
    if let Err(refusal) = meet_checks(points_a, table_a, points_b, table_b) {
        return refuses(refusal);
    }
    let lines = Lines {
        a: Tree {
            points: points_a,
            table: table_a,
        },
        b: Tree {
            points: points_b,
            table: table_b,
        },
    };
    from_roots(&lines, Tally::fresh(allowance))
}
