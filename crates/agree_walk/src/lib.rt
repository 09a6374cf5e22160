// AGREE's walks: a line's points in order against the other line. Each point is a NEAR walk of its own, and one tally
// goes through them all; how the asking ends is that of `rules`, for all numbers that the slices can hold.
#![tactic(auto)]

ghost use Rattle.std.specs.Prelude.{◌≡◌, ◌+◌, ◌*◌, ◌<◌, ◌≤◌, length};
ghost use Rattle.rules.specs.Sheet.{points_of};
ghost use Rattle.rules.specs.Questions.{agreed};
ghost use Rattle.ending.specs.Ending.{end_in, ENDED};
ghost use Rattle.near_walk.specs.Walks.{AsksLine};
ghost use Rattle.agree_walk.specs.Asking.{asked, Asks, AsksAll, AsksAllOff};

use rules::{Line, Refusal, Reply, Tally, Word, disagrees, refuses, says};

// How the asking of a point off the sheet ends: above the number of every bad row, beside which it stands in `ending`'s
// number.
const OFF: u32 = ending::PAST;

// Where the asking of a line's points stopped, and how.
#[derive(Drop)]
pub struct Stopped {
    pub at: usize,
    pub ending: u64,
}

// Point i of a line against the other: refusal 8, then the walk.
fn ask_point(points: &[i64], i: usize, theirs: &&[i64], table: &&[i64], d: i64, tally: Tally) -> u64
    requires { (2 * i + 1 < length points.now) × AsksLine theirs.now.now table.now.now d }
    ensures { Asks points.now theirs.now.now
        table.now.now d i 1 tally i result }
{
    let z = line::point_at(points, i);
    if !line::on_sheet(z) {
        return ending::pack(tally.visits, OFF);
    }
    near_walk::ask(theirs, table, z, d, tally)
}

// The points of a line in order against the other; the first that is not near ends it.
pub fn ask_all(points: &[i64], theirs: &&[i64], table: &&[i64], d: i64, tally: Tally) -> Stopped
    requires { AsksLine theirs.now.now table.now.now d }
    ensures { AsksAll points.now theirs.now.now table.now.now d tally result }
{
    let count = points.len() / 2;
    let mut ending = ending::pack(tally.visits, ending::ENDED);
    for i in 0..count {
        let rest = ending::tally_in(tally.allowance, ending);
        ending = ask_point(points, i, theirs, table, d, rest);
        if ending::end_in(ending) != ending::ENDED {
            return Stopped { at: i, ending };
        }
    }
    Stopped { at: count, ending }
}

// Against a line that begins or ends off the sheet: the first point is asked, and the root's row that it meets is bad.
pub fn bad_start(points: &[i64], tally: Tally) -> Stopped
    requires { 1 ≤ points_of points.now }
    ensures asks_all_off { AsksAllOff points.now tally result }
    ensures bound { ENDED < end_in result.ending }
{
    if !line::on_sheet(line::point_at(points, 0)) {
        return Stopped {
            at: 0,
            ending: ending::pack(tally.visits, OFF),
        };
    }
    Stopped {
        at: 0,
        ending: ending::bad_row_due(tally, 0),
    }
}

// What the asking of a line's points against the other comes to.
pub fn agreement(line: Line, other: Line, stopped: Stopped, allowance: u32) -> Reply
    ensures { result ≡ agreed allowance (asked line other stopped.at allowance stopped.ending) }
{
    let at = stopped.at;
    let ending = stopped.ending;
    let end = ending::end_in(ending);
    let visits = ending::visits_in(ending);
    if end < ending::ENDED {
        return disagrees(line, at, visits);
    }
    if end == ending::ENDED {
        return says(Word::YES, visits);
    }
    if end == ending::SPENT {
        return says(Word::UNDECIDED, allowance);
    }
    if end == OFF {
        return refuses(Refusal {
            number: 8,
            line,
            place: at,
            visits,
        });
    }
    refuses(ending::refusal(other, other, ending))
}
