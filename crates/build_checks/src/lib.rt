// The refusals of building and of checking a table, 1 to 6 in this order.
#![tactic(auto)]

ghost use Rattle.std.specs.Prelude.{◌≡◌, List, ◌+◌, ◌*◌, ◌≤◌, ◌<◌, ℤ, length, MatchOption};
ghost use Rattle.rules.specs.Build.{lowest, off_sheet, equal_next, build_refusal};
ghost use Rattle.rules.specs.Reply.{checked_refusal};

use limits::WIDTH;
use line::{check_points, early, on_sheet_at, point_at};
use rules::{Line, Refusal};

// The lowest point off the sheet.
fn lowest_off(points: &[i64], count: usize) -> Option<usize>
    requires { 2 * count ≤ length points.now }
    ensures { let p = lowest (off_sheet points.now) 0 count in
        MatchOption result (p ≡ count) (λ i. (i < count) × (p ≡ i)) }
{
    (0..count).find(|&i| !on_sheet_at(points, i))
}

// Whether point i of a line equals the next.
fn equals_next(points: &[i64], i: usize) -> bool
    requires { 2 * i + 3 < length points.now }
    ensures { result ≡ equal_next points.now i }
{
    point_at(points, i) == point_at(points, i + 1)
}

// The lowest point that equals the next.
fn lowest_equal(points: &[i64], segments: usize) -> Option<usize>
    requires { 2 * segments + 2 ≤ length points.now }
    ensures { let p = lowest (equal_next points.now) 0 segments in
        MatchOption result (p ≡ segments) (λ i. (i < segments) × (p ≡ i)) }
{
    (0..segments).find(|&i| equals_next(points, i))
}

// The first refusal, for a table of so many numbers.
#[tactic(auto, unfolding(rules::specs::Build::build_refusal))]
pub fn check(points: &[i64], room: usize) -> Result<(), Refusal>
    ensures { (t : List ℤ) → length t ≡ room → checked_refusal result ≡ build_refusal points.now t }
{
    check_points(Line::LineA, points)?;
    let count = points.len() / 2;
    if let Some(place) = lowest_off(points, count) {
        return Err(Refusal {
            place,
            ..early(4, Line::LineA)
        });
    }
    let segments = count - 1;
    if let Some(place) = lowest_equal(points, segments) {
        return Err(Refusal {
            place,
            ..early(5, Line::LineA)
        });
    }
    if room < WIDTH * (2 * segments - 1) {
        return Err(early(6, Line::LineA));
    }
    Ok(())
}
