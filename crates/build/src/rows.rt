// The rows of a run of points, in preorder.
ghost use Rattle.std.specs.Prelude.{◌≡◌, ◌++◌, ℕ, ◌+◌, ◌*◌, ◌-◌, ◌<◌, ◌≤◌, length, drop};
ghost use Rattle.rules.specs.Sheet.{most};
ghost use Rattle.rules.specs.Tree.{split_of, width, numbers, rows_of, row_count};
ghost use Rattle.run.specs.Run.{AllOnSheet};
ghost use Rattle.build.specs.Rows.{split_number, node_row};

use limits::{WIDTH, column};
use rules::Row;
use run::measure;

// Writes the numbers of a row at the front of the table.
fn put_numbers(table: &mut [i64], row: Row)
    requires { width ≤ length table.old }
    ensures { table.new ≡ numbers row ++ drop width table.old }
{
    table[column::FIRST] = row.first;
    table[column::LAST] = row.last;
    table[column::SPLIT] = row.split;
    table[column::CMIN] = row.cmin;
    table[column::CMAX] = row.cmax;
    table[column::TMIN] = row.tmin;
    table[column::TMAX] = row.tmax;
    table[column::XMIN] = row.xmin;
    table[column::XMAX] = row.xmax;
    table[column::YMIN] = row.ymin;
    table[column::YMAX] = row.ymax;
}

// The split as a row has it: -1 for a leaf.
fn split_number(first: usize, last: usize, split: usize) -> i64
    requires { (first < most) × (split < most) }
    ensures { result ≡ split_number first last split }
{
    if first + 1 < last {
        return split as i64;
    }
    -1
}

// Writes the row of a node, and gives the split point. The run of the node's points is handed on as a part that starts
// in the middle of the line.
fn put_row(points: &[i64], first: usize, last: usize, table: &mut [i64]) -> usize
    requires { (first < last) × (last < most) × (2 * last + 2 ≤ length points.now) × AllOnSheet points.now
        × (width ≤ length table.old) }
    ensures value { result ≡ split_of points.now first last }
    ensures table_after { table.new
        ≡ numbers (node_row points.now first last) ++ drop width table.old }
{
    let from = 2 * first;
    let to = 2 * last + 2;
    let m = measure(&points[from..to]);
    let split = first + m.top.split;
    let row = Row {
        first: first as i64,
        last: last as i64,
        split: split_number(first, last, split),
        cmin: m.c.lo,
        cmax: m.c.hi,
        tmin: m.t.lo,
        tmax: m.t.hi,
        xmin: m.x.lo,
        xmax: m.x.hi,
        ymin: m.y.lo,
        ymax: m.y.hi,
    };
    put_numbers(table, row);
    split
}

// Writes the rows of the node that covers the points first to last at the front of the table: its own, and then those
// of its halves, which share the split point. A row is put in two places: so the compiler keeps `put_row` a function of
// its own, and what that works with is off the stack before the halves are built.
pub fn build_node(points: &&[i64], first: usize, last: usize, table: &mut [i64])
    requires { (first < last) × (last < most) × (2 * last + 2 ≤ length points.now.now)
        × AllOnSheet points.now.now × (2 * width * last ≤ length table.old + 2 * width * first + width) }
    ensures { (f : ℕ) → last ≤ f + first → table.new
        ≡ rows_of f points.now.now first last
        ++ drop (width * row_count (last - first)) table.old }
{
    if last <= first + 1 {
        put_row(*points, first, last, table);
        return;
    }
    let split = put_row(*points, first, last, table);
    let right = WIDTH * (2 * (split - first));
    build_node(points, first, split, &mut table[WIDTH..right]);
    build_node(points, split, last, &mut table[right..]);
}
