// How a walk ended, as one number that it hands back in a register, and what that number answers. Every function says
// its result by a definition of `rules`, read out of the number (specs/Ending.antt).
#![tactic(auto)]

ghost use Rattle.std.specs.Prelude.{◌≡◌, ◌+◌, ◌<◌, ◌≤◌, leb};
ghost use Rattle.rules.specs.Tree.{most_rows};
ghost use Rattle.rules.specs.Walk.{next};
ghost use Rattle.rules.specs.Questions.{yes_or_no};
ghost use Rattle.ending.specs.Ending.{packed, visits_in, end_in, ENDED, over_at, bad_row, bad_second, odd_in};
ghost use Rattle.ending.specs.Ending.{refusal_in};
ghost use Rattle.ending.specs.Ending.{tally_in, due, walked_in};

use rules::{Line, Refusal, Reply, Tally, Word, refuses, says};

// How a walk ended: over, with an even count,
pub const EVEN: u32 = 0;

// or with an odd one;
pub const ODD: u32 = 1;

// by a yes or on-edge;
pub const ENDED: u32 = 2;

// for want of visits;
pub const SPENT: u32 = 3;

// from here on, at that bad row of the first line,
const BAD_ROW: u32 = 4;

// and from here on, of the second.
const BAD_SECOND: u32 = BAD_ROW + limits::MOST_ROWS as u32;

// No walk ends from here on: what makes several walks may end so.
pub const PAST: u32 = BAD_SECOND + limits::MOST_ROWS as u32;

// The visits made stand above how a walk ended, which has the 32 bits below.
const HALF: u64 = 1 << 32;

// How a walk came to its end is one number, which a walk hands back in a register, where an enum goes through memory at
// each level: the visits made, times HALF, and how it ended below them.
pub fn pack(visits: u32, end: u32) -> u64
    ensures { result ≡ packed visits end }
{
    visits as u64 * HALF + end as u64
}

pub fn visits_in(ending: u64) -> u32
    ensures { result ≡ visits_in ending }
{
    (ending / HALF) as u32
}

pub fn end_in(ending: u64) -> u32
    ensures { result ≡ end_in ending }
{
    (ending % HALF) as u32
}

// The tally with which what is left to visit goes on.
pub fn tally_in(allowance: u32, ending: u64) -> Tally
    ensures { result ≡ tally_in allowance ending }
{
    Tally {
        allowance,
        visits: visits_in(ending),
    }
}

// Whether a walk that is over counted an odd number.
pub fn odd_in(ending: u64) -> bool
    ensures { result ≡ odd_in ending }
{
    end_in(ending) == ODD
}

// Over after these visits, with an odd count or an even one.
pub fn over(visits: u32, odd: bool) -> u64
    ensures { result ≡ packed visits (over_at odd) }
{
    pack(visits, odd as u32)
}

// Refused for a bad row of the first line.
pub fn bad_row(visits: u32, row: usize) -> u64
    requires { row < most_rows }
    ensures { result ≡ packed visits (bad_row + row) }
{
    pack(visits, BAD_ROW + row as u32)
}

// A visit is due that ends the walk, if there is one left to make.
fn due(tally: Tally, end: u32) -> u64
    ensures { result ≡ due (next tally) end }
{
    let Some(counted) = tally.visit() else {
        return pack(0, SPENT);
    };
    pack(counted.visits, end)
}

// A visit is due to a bad row of the first line, or of the second.
pub fn bad_row_due(tally: Tally, row: usize) -> u64
    requires { row < most_rows }
    ensures { result ≡ due (next tally) (bad_row + row) }
{
    due(tally, BAD_ROW + row as u32)
}

pub fn bad_second_due(tally: Tally, row: usize) -> u64
    requires { row < most_rows }
    ensures { result ≡ due (next tally) (bad_second + row) }
{
    due(tally, BAD_SECOND + row as u32)
}

// Whether the walk stopped, and nothing is left to visit.
pub fn stopped(ending: u64) -> bool
    ensures { result ≡ leb ENDED (end_in ending) }
{
    ENDED <= end_in(ending)
}

// Refusal 10, at a row of the first line or of the second.
pub fn refusal(first: Line, second: Line, ending: u64) -> Refusal
    requires { bad_row ≤ end_in ending }
    ensures { result ≡ refusal_in first second ending }
{
    let end = end_in(ending);
    let visits = visits_in(ending);
    if end < BAD_SECOND {
        return Refusal {
            number: 10,
            line: first,
            place: (end - BAD_ROW) as usize,
            visits,
        };
    }
    Refusal {
        number: 10,
        line: second,
        place: (end - BAD_SECOND) as usize,
        visits,
    }
}

// The reply of NEAR and MEET.
pub fn answer(ending: u64, allowance: u32) -> Reply
    ensures { result ≡ yes_or_no allowance (walked_in tt tt Line.LineA Line.LineB allowance ending) }
{
    let end = end_in(ending);
    if end < ENDED {
        return says(Word::NO, visits_in(ending));
    }
    if end == ENDED {
        return says(Word::YES, visits_in(ending));
    }
    if end == SPENT {
        return says(Word::UNDECIDED, allowance);
    }
    refuses(refusal(Line::LineA, Line::LineB, ending))
}
