// What a record is answered, asked as a question over the stores of the two lines: the tables that it needs are
// readied; where they stand, it is asked of the points and of just their rows, and else what was refused is told.
#![tactic(auto)]

ghost use Rattle.std.specs.Prelude.{◌≡◌};
ghost use Rattle.rules.specs.Build.{table_of};
ghost use Rattle.desk.specs.Kept.{store_in};
ghost use Rattle.ready.specs.Readied.{LentLine, HasRows};
ghost use Rattle.ready.specs.Left.{built_of};
ghost use Rattle.answers.specs.Asked.{needed_by, answer_to, Replies};

use desk::Held;
use ready::{Needed, Prepared, StoredLine, TablesBuilt, ready_for, refused, rows};
use rules::{Line, Point, Reply};
use words::Record;

// A reply, and which tables are built once it is given.
#[derive(Drop)]
pub struct Replied {
    pub reply: Reply,
    pub built: TablesBuilt,
}

// The tables that a record needs.
fn needed_by(record: Record) -> Needed
    ensures { result ≡ needed_by «record» }
{
    match record {
        Record::Near { .. } | Record::In { .. } => Needed::TableA,
        Record::Meet(_) | Record::Agree { .. } => Needed::BothTables,
        Record::Start(_) | Record::Pt(_, _) | Record::NotUnderstood => Needed::NoTable,
    }
}

// The reply, of the points of two lines and of just their rows; what is no question is refusal 12.
fn ask(
    record: Record,
    place: usize,
    a: &[i64],
    table_a: &[i64],
    b: &[i64],
    table_b: &[i64],
) -> Reply
    requires { HasRows (needed_by «record») a.now table_a.now b.now table_b.now }
    ensures { result ≡ answer_to «record» place a.now (table_of a.now)
        b.now (table_of b.now) }
{
    match record {
        Record::Near {
            x,
            y,
            distance,
            allowance,
        } => near::near(a, rows(a, table_a), Point { x, y }, distance, allowance),
        Record::In { x, y, allowance } => inside::inside(
            a,
            rows(a, table_a),
            Point { x, y },
            allowance,
        ),
        Record::Meet(allowance) => meet::meet(a, rows(a, table_a), b, rows(b, table_b), allowance),
        Record::Agree {
            distance,
            allowance,
        } => agree::agree(
            a,
            rows(a, table_a),
            b,
            rows(b, table_b),
            distance,
            allowance,
        ),
        _ => refused(12, Line::NoLine, place, 0),
    }
}

// The reply, of the stores of two lines; the tables are left as they are readied.
pub fn reply(
    record: Record,
    place: usize,
    held_a: Held,
    points_a: &[i64],
    table_a: &mut [i64],
    held_b: Held,
    points_b: &[i64],
    table_b: &mut [i64],
) -> Replied
    requires lent_line { LentLine held_a points_a.now table_a.old }
    requires lent_line_2 { LentLine held_b points_b.now table_b.old }
    ensures { Replies «record» place (store_in held_a points_a.now)
        (store_in held_b points_b.now) (built_of held_a held_b)
        table_a.old table_b.old result table_a.new table_b.new }
{
    let a = StoredLine {
        held: held_a,
        numbers: points_a,
    };
    let b = StoredLine {
        held: held_b,
        numbers: points_b,
    };
    let Prepared { readied, built } = ready_for(needed_by(record), a, table_a, b, table_b, place);
    let reply = match readied {
        Ok(()) => ask(record, place, a.points(), table_a, b.points(), table_b),
        Err(told) => told,
    };
    Replied { reply, built }
}
