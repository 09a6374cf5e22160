// NEAR: whether a point lies within a distance of a line. The checks in their order, then the walk; the answer is that
// of `rules`, for all numbers that the slices can hold.
#![tactic(auto)]

ghost use Rattle.std.specs.Prelude.{◌≡◌};
ghost use Rattle.rules.specs.Reply.{checked_refusal, first_refusal};
ghost use Rattle.rules.specs.Questions.{near_checks, near_reply};

use rules::{Line, Point, Refusal, Reply, Tally, refuses};

// Refusals 1, 2, 3, 6, 7 and 8, in this order.
fn near_checks(points: &[i64], table: &[i64], z: Point, distance: i64) -> Result<(), Refusal>
    ensures { checked_refusal result ≡ first_refusal (near_checks points.now table.now z distance) }
{
    line::check_lengths(Line::LineA, points, table)?;
    if !reach::distance_fits(distance) {
        return Err(line::early(7, Line::NoLine));
    }
    if !line::on_sheet(z) {
        return Err(line::early(8, Line::NoLine));
    }
    Ok(())
}

// Whether z is within the distance of the line: the checks, then the walk.
pub fn near(points: &[i64], table: &[i64], z: Point, distance: i64, allowance: u32) -> Reply
    ensures { result ≡ near_reply points.now table.now z distance allowance }
{
    if let Err(refusal) = near_checks(points, table, z, distance) {
        return refuses(refusal);
    }
    let ending = near_walk::ask_any(&points, &table, z, distance, Tally::fresh(allowance));
    ending::answer(ending, allowance)
}
