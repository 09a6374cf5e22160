// IN: which side of a ring a point is on. `inside` replies as `in_reply` says, whatever the points, the table, the
// point and the allowance are.
#![tactic(auto)]

ghost use Rattle.std.specs.Prelude.{◌≡◌, true, false, ◌≤◌, length};
ghost use Rattle.rules.specs.Reply.{checked_refusal, first_refusal};
ghost use Rattle.rules.specs.Questions.{side_of_ring, in_checks, in_reply};
ghost use Rattle.rules.specs.Rows.{ring_check};
ghost use Rattle.ending.specs.Ending.{walked_in};

use line::{check_lengths, early, on_sheet, point_at};
use rules::{Line, Point, Refusal, Reply, Word, refuses, says};

// Refusal 9: fewer than 4 points, or first and last differ.
fn no_ring(points: &[i64]) -> bool
    requires { 4 ≤ length points.now }
    ensures { result ≡ (ring_check Line.LineA points.now).holds }
{
    let count = points.len() / 2;
    if count < 4 {
        return true;
    }
    point_at(points, 0) != point_at(points, count - 1)
}

// Inside when the count is odd.
fn side_of_ring(ending: u64, allowance: u32) -> Reply
    ensures { result ≡ side_of_ring allowance (walked_in false true Line.LineA Line.LineA allowance ending) }
{
    let end = ending::end_in(ending);
    let visits = ending::visits_in(ending);
    if end < ending::ENDED {
        if end == ending::ODD {
            return says(Word::INSIDE, visits);
        }
        return says(Word::OUTSIDE, visits);
    }
    if end == ending::ENDED {
        return says(Word::ON, visits);
    }
    if end == ending::SPENT {
        return says(Word::UNDECIDED, allowance);
    }
    refuses(ending::refusal(Line::LineA, Line::LineA, ending))
}

// Refusals 1, 2, 3, 6, 8 and 9, in this order.
fn in_checks(points: &[i64], table: &[i64], z: Point) -> Result<(), Refusal>
    ensures { checked_refusal result ≡ first_refusal (in_checks points.now table.now z) }
{
    check_lengths(Line::LineA, points, table)?;
    if !on_sheet(z) {
        return Err(early(8, Line::NoLine));
    }
    if no_ring(points) {
        return Err(early(9, Line::LineA));
    }
    Ok(())
}

// Which side of the ring z is on, by at most this many visits: the checks, then the walk.
pub fn inside(points: &[i64], table: &[i64], z: Point, allowance: u32) -> Reply
    ensures { result ≡ in_reply points.now table.now z allowance }
{
    if let Err(refusal) = in_checks(points, table, z) {
        return refuses(refusal);
    }
    side_of_ring(in_walk::ask(&points, &table, z, allowance), allowance)
}
