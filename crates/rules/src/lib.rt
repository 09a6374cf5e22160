// The rules of docs/RULES.md as definitions (specs/), and the values that answers are made of. Nothing here computes
// geometry: the crates above promise `r ≡ definition`, where both sides are the one `Reply`.
#![tactic(auto)]

ghost use Rattle.std.specs.Prelude.{◌≡◌};
ghost use Rattle.rules.specs.Reply.{says, disagrees, refuses};
ghost use Rattle.rules.specs.Walk.{fresh, next};

// A point in sheet units.
#[derive(Clone, Copy, PartialEq, Eq)]
pub struct Point {
    pub x: i64,
    pub y: i64,
}

// The numbers of a table row.
#[derive(Clone, Copy)]
pub struct Row {
    pub first: i64,
    pub last: i64,
    pub split: i64,
    pub cmin: i64,
    pub cmax: i64,
    pub tmin: i64,
    pub tmax: i64,
    pub xmin: i64,
    pub xmax: i64,
    pub ymin: i64,
    pub ymax: i64,
}

// A node of a line's tree: its row, and the range of points handed down.
#[derive(Clone, Copy)]
pub struct Node {
    pub row: usize,
    pub first: usize,
    pub last: usize,
}

// A node of line A and one of line B.
#[derive(Clone, Copy)]
pub struct Pair {
    pub a: Node,
    pub b: Node,
}

// The line that is at fault, or none. Three variants are plainer than an `Option` of two: each is printed and coded by
// one `match`, and `State` aims at one of them.
#[derive(Clone, Copy)]
pub enum Line {
    NoLine,
    LineA,
    LineB,
}

// A numbered refusal: its number, the line at fault, the place, and the visits made. Checks come to the first refusal
// or to nothing, `Result<(), Refusal>`: so answer the calls that write, and the checker. The rules know a refusal by
// its number, and theorems compare numbers (`near-to-10`, `number-last` in refusals): so it is no enum.
#[derive(Clone, Copy)]
pub struct Refusal {
    pub number: u32,
    pub line: Line,
    pub place: usize,
    pub visits: u32,
}

// The words of an answer, as they are printed.
#[derive(Clone, Copy)]
pub enum Word {
    YES,
    NO,
    INSIDE,
    OUTSIDE,
    ON,
    UNDECIDED,
    REFUSED,
}

// What a question is answered with: the word, the visits made, the refusal number or 0, the line at fault, or none,
// and the place or 0. They stand side by side, as they are printed, since definitions and theorems speak of each
// (`printed`, `FirstBad`, `SaysOnly`).
#[derive(Clone, Copy)]
pub struct Reply {
    pub word: Word,
    pub visits: u32,
    pub number: u32,
    pub line: Line,
    pub place: usize,
}

// A word after these visits, and nothing at fault.
pub fn says(word: Word, visits: u32) -> Reply
    ensures { result ≡ says word visits }
{
    Reply {
        word,
        visits,
        number: 0,
        line: Line::NoLine,
        place: 0,
    }
}

// AGREE's no, which names the first point that is not near the other line.
pub fn disagrees(line: Line, point: usize, visits: u32) -> Reply
    ensures { result ≡ disagrees line point visits }
{
    Reply {
        word: Word::NO,
        visits,
        number: 0,
        line,
        place: point,
    }
}

pub fn refuses(refusal: Refusal) -> Reply
    ensures { result ≡ refuses refusal }
{
    let line = refusal.line;
    Reply {
        word: Word::REFUSED,
        visits: refusal.visits,
        number: refusal.number,
        line,
        place: refusal.place,
    }
}

// The tally of visits is a value: each visit takes it and gives the next one back.
#[derive(Clone, Copy)]
pub struct Tally {
    pub allowance: u32,
    pub visits: u32,
}

impl Tally {
    // No visit is made yet.
    pub fn fresh(allowance: u32) -> Tally
        ensures { result ≡ fresh allowance }
    {
        Tally {
            allowance,
            visits: 0,
        }
    }

    // The next tally, or none where no visit is left.
    pub fn visit(self) -> Option<Tally>
        ensures { result ≡ next self }
    {
        if self.visits < self.allowance {
            Some(Tally {
                visits: self.visits + 1,
                ..self
            })
        } else {
            None
        }
    }
}
