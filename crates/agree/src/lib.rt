// AGREE: whether each point of one line is near the other line, both ways round. The checks in their order, then the
// walks; the answer is that of `rules`, for all numbers that the slices can hold.
#![tactic(auto)]

ghost use Rattle.std.specs.Prelude.{◌≡◌, ◌≤◌};
ghost use Rattle.integers.specs.Range.{Abs≤};
ghost use Rattle.rules.specs.Sheet.{points_of, farthest};
ghost use Rattle.rules.specs.Reply.{checked_refusal, first_refusal};
ghost use Rattle.rules.specs.Questions.{agree_checks, agree_reply};
ghost use Rattle.visits.specs.Fine.{LengthsFine};
ghost use Rattle.agree_walk.specs.Asking.{AsksAll};

use agree_walk::Stopped;
use rules::{Line, Refusal, Reply, Tally, refuses};

// Refusals 1, 2, 3 and 6 of A, then of B, then 7.
fn agree_checks(
    points_a: &[i64],
    table_a: &[i64],
    points_b: &[i64],
    table_b: &[i64],
    distance: i64,
) -> Result<(), Refusal>
    ensures { checked_refusal result ≡ first_refusal (agree_checks points_a.now table_a.now
        points_b.now table_b.now distance) }
{
    line::check_lengths(Line::LineA, points_a, table_a)?;
    line::check_lengths(Line::LineB, points_b, table_b)?;
    if !reach::distance_fits(distance) {
        return Err(line::early(7, Line::NoLine));
    }
    Ok(())
}

// The points of a line against the other line, wherever that begins and ends.
fn ask_line(points: &[i64], theirs: &&[i64], table: &&[i64], d: i64, tally: Tally) -> Stopped
    requires { (1 ≤ points_of points.now) × LengthsFine theirs.now.now table.now.now × Abs≤ farthest d }
    ensures { AsksAll points.now theirs.now.now table.now.now d tally result }
{
    if !row::ends_on_sheet(*theirs) {
        return agree_walk::bad_start(points, tally);
    }
    agree_walk::ask_all(points, theirs, table, d, tally)
}

// Whether two lines agree at a distance: the checks, then the walks.
pub fn agree(
    points_a: &[i64],
    table_a: &[i64],
    points_b: &[i64],
    table_b: &[i64],
    distance: i64,
    allowance: u32,
) -> Reply
    ensures { result ≡ agree_reply points_a.now table_a.now
        points_b.now table_b.now distance allowance }
{
    if let Err(refusal) = agree_checks(points_a, table_a, points_b, table_b, distance) {
        return refuses(refusal);
    }
    let a = ask_line(
        points_a,
        &points_b,
        &table_b,
        distance,
        Tally::fresh(allowance),
    );
    if ending::end_in(a.ending) != ending::ENDED {
        return agree_walk::agreement(Line::LineA, Line::LineB, a, allowance);
    }
    let rest = ending::tally_in(allowance, a.ending);
    let b = ask_line(points_b, &points_a, &table_a, distance, rest);
    agree_walk::agreement(Line::LineB, Line::LineA, b, allowance)
}
