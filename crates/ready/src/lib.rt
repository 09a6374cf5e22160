// The tables of a question of the question program, readied from the stores of its lines: A's, then B's if needed. A
// line under 13 is refused in place of its build, and a refused A means that B is not built. The lent tables hold what
// is built, and nothing else in them changes. A table that is built already is not built again: that would change
// nothing.
#![tactic(auto)]

ghost use Rattle.std.specs.Prelude.{◌≡◌};
ghost use Rattle.rules.specs.Build.{table_of};
ghost use Rattle.rules.specs.Reply.{refuses};
ghost use Rattle.desk.specs.Kept.{Stored};
ghost use Rattle.ready.specs.Left.{built_of};
ghost use Rattle.ready.specs.Readied.{store_of, LentLine, Rows, ReadiesLine, Readies};

use desk::Held;
use limits::WIDTH;
use rules::{Line, Refusal, Reply, refuses};

// The tables that are needed.
#[derive(Drop)]
pub enum Needed {
    NoTable,
    TableA,
    BothTables,
}

// Which of the two tables are built from the stores as they are.
#[derive(Drop)]
pub struct TablesBuilt {
    pub a: bool,
    pub b: bool,
}

// Whether the tables that a question needs stand ready, or what is told in place of its answer; and which of them are
// built then.
#[derive(Drop)]
pub struct Prepared {
    pub readied: Result<(), Reply>,
    pub built: TablesBuilt,
}

// A line as it is stored: how it is held, and the numbers of its store.
#[derive(Clone, Copy)]
pub struct StoredLine<'a> {
    pub held: Held,
    pub numbers: &'a [i64],
}

impl<'a> StoredLine<'a> {
    // The points that are counted, and no number past them.
    pub fn points(self) -> &'a [i64]
        requires { Stored self.held self.numbers.now }
        ensures { result.now ≡ (store_of self.entry).points }
    {
        &self.numbers[..2 * self.held.count]
    }
}

// The rows of a line, out of its table, and nothing past them.
pub fn rows<'a>(line: &[i64], table: &'a [i64]) -> &'a [i64]
    requires { Rows line.now table.now }
    ensures { result.now ≡ table_of line.now }
{
    let segments = line.len() / 2 - 1;
    let numbers = WIDTH * (2 * segments - 1);
    &table[..numbers]
}

// A refusal with its place, as it is told.
pub fn refused(number: u32, line: Line, place: usize, visits: u32) -> Reply
    ensures { result ≡ refuses (record { number = number; line = line; place = place; visits = visits }) }
{
    refuses(Refusal {
        number,
        line,
        place,
        visits,
    })
}

// Builds the table of a line from its store, unless it is built, or tells why not: 13 in place of the build, or what
// the build refused.
fn ready(line: Line, store: StoredLine<'_>, table: &mut [i64], place: usize) -> Result<(), Reply>
    requires { LentLine store.held store.numbers.now table.old }
    ensures { ReadiesLine line (store_of store.entry) place table.old result table.new }
{
    let held = store.held;
    if held.built {
        return Ok(());
    }
    if held.over {
        return Err(refused(13, line, place, 0));
    }
    let built = build::build(store.points(), table);
    built.map_err(|refusal| refuses(Refusal { line, ..refusal }))
}

// The tables of A and then of B; where A's is refused, B's is not built.
fn ready_both(
    store_a: StoredLine<'_>,
    table_a: &mut [i64],
    store_b: StoredLine<'_>,
    table_b: &mut [i64],
    place: usize,
) -> Prepared
    requires lent_line { LentLine store_a.held store_a.numbers.now table_a.old }
    requires lent_line_2 { LentLine store_b.held store_b.numbers.now table_b.old }
    ensures { Readies Needed.BothTables (store_of store_a.entry)
        (store_of store_b.entry) place (built_of store_a.entry.held store_b.entry.held)
        table_a.old table_b.old result table_a.new table_b.new }
{
    let first = ready(Line::LineA, store_a, table_a, place);
    if first.is_err() {
        return Prepared {
            readied: first,
            built: TablesBuilt {
                a: false,
                b: store_b.held.built,
            },
        };
    }
    let second = ready(Line::LineB, store_b, table_b, place);
    Prepared {
        readied: second,
        built: TablesBuilt {
            a: true,
            b: second.is_ok(),
        },
    }
}

// The tables that are needed, and no others.
pub fn ready_for(
    needed: Needed,
    store_a: StoredLine<'_>,
    table_a: &mut [i64],
    store_b: StoredLine<'_>,
    table_b: &mut [i64],
    place: usize,
) -> Prepared
    requires lent_line { LentLine store_a.held store_a.numbers.now table_a.old }
    requires lent_line_2 { LentLine store_b.held store_b.numbers.now table_b.old }
    ensures { Readies needed (store_of store_a.entry)
        (store_of store_b.entry) place (built_of store_a.entry.held store_b.entry.held)
        table_a.old table_b.old result table_a.new table_b.new }
{
    match needed {
        Needed::NoTable => Prepared {
            readied: Ok(()),
            built: TablesBuilt {
                a: store_a.held.built,
                b: store_b.held.built,
            },
        },
        Needed::TableA => {
            let readied = ready(Line::LineA, store_a, table_a, place);
            Prepared {
                readied,
                built: TablesBuilt {
                    a: readied.is_ok(),
                    b: store_b.held.built,
                },
            }
        }
        Needed::BothTables => ready_both(store_a, table_a, store_b, table_b, place),
    }
}
