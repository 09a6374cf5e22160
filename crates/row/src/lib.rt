// Rows as the machine reads them: a row out of a table, and the row rules of refusal 10. Every function says its result
// by a definition of `rules`.
#![tactic(auto)]

ghost use Rattle.std.specs.Prelude.{◌≡◌, ◌&&◌, ◌+◌, ◌*◌, ◌<◌, ◌≤◌, T, pos, length, ◌≤ℤ◌};
ghost use Rattle.std.specs.Int.Signed.{le_z};
ghost use Rattle.rules.specs.Tree.{width, number_at, row_at};
ghost use Rattle.rules.specs.Sheet.{fewest, most, point, points_of, segments_of, on_sheet};
ghost use Rattle.rules.specs.Rows.{range_good, strip_good, side_good, box_good, ends_good, good};
ghost use Rattle.rules.specs.Questions.{split_in};
ghost use Rattle.row.specs.Parts.{frame_good, leaf_fits, split_fits};

use limits::{LIMIT, WIDTH, column};
use line::{on_sheet, on_sheet_at, point_at};
use rules::{Point, Row};

// Number k of row r.
fn number_at(table: &[i64], r: usize, k: usize) -> i64
    requires { (k < width) × (width * r + width ≤ length table.now) }
    ensures { result ≡ number_at table.now r k }
{
    table[WIDTH * r + k]
}

// Row r of a table.
#[tactic(auto, unfolding(rules::specs::Tree::row_at))]
pub fn row_at(table: &[i64], r: usize) -> Row
    requires { width * r + width ≤ length table.now }
    ensures { result ≡ row_at table.now r }
{
    Row {
        first: number_at(table, r, column::FIRST),
        last: number_at(table, r, column::LAST),
        split: number_at(table, r, column::SPLIT),
        cmin: number_at(table, r, column::CMIN),
        cmax: number_at(table, r, column::CMAX),
        tmin: number_at(table, r, column::TMIN),
        tmax: number_at(table, r, column::TMAX),
        xmin: number_at(table, r, column::XMIN),
        xmax: number_at(table, r, column::XMAX),
        ymin: number_at(table, r, column::YMIN),
        ymax: number_at(table, r, column::YMAX),
    }
}

fn range_good(r: Row, first: usize, last: usize) -> bool
    requires { (first < last) × (last < most) }
    ensures { result ≡ range_good r first last }
{
    r.first == first as i64 && r.last == last as i64
}

// A node of more segments splits strictly inside its range.
pub fn splits_inside(r: Row, first: usize, last: usize) -> bool
    requires { (first < last) × (last < most) }
    ensures { result ≡ split_fits r first last }
{
    (first as i64) < r.split && r.split < last as i64
}

fn strip_good(r: Row) -> bool
    ensures { result ≡ strip_good r }
{
    (r.cmin <= 0) & (0 <= r.cmax) & (r.tmin <= 0) & (0 <= r.tmax)
}

#[tactic(auto, using(crate::proofs::Parts::three_suffice))]
fn side_good(lo: i64, hi: i64) -> bool
    ensures { result ≡ side_good lo hi }
{
    (-LIMIT <= lo) & (lo <= hi) & (hi <= LIMIT)
}

fn box_good(r: Row) -> bool
    ensures { result ≡ box_good r }
{
    side_good(r.xmin, r.xmax) & side_good(r.ymin, r.ymax)
}

// The rules that ask for no point: the range handed down, a strip that holds the start, a box on the sheet.
pub fn frame_good(r: Row, first: usize, last: usize) -> bool
    requires { (first < last) × (last < most) }
    ensures { result ≡ frame_good r first last }
{
    if !range_good(r, first, last) {
        return false;
    }
    strip_good(r) & box_good(r)
}

// A leaf has no split, and its two points differ.
pub fn leaf_good(r: Row, a: Point, b: Point) -> bool
    ensures { result ≡ leaf_fits r a b }
{
    r.split == -1 && a != b
}

// Whether a row is good whose node is known to begin and end on the sheet.
pub fn good_between(points: &[i64], r: Row, first: usize, last: usize) -> bool
    requires first_lt_last { (first < last) × (last < most) × (2 * last + 1 < length points.now) }
    requires t { T (on_sheet (point points.now first)) × T (on_sheet (point points.now last)) }
    ensures { result ≡ good points.now r first last }
{
    if !frame_good(r, first, last) {
        return false;
    }
    if last <= first + 1 {
        return leaf_good(r, point_at(points, first), point_at(points, last));
    }
    splits_inside(r, first, last)
}

// Whether a row is good whose node is known to begin on the sheet.
pub fn good_from(points: &[i64], r: Row, first: usize, last: usize) -> bool
    requires first_lt_last { (first < last) × (last < most) × (2 * last + 1 < length points.now) }
    requires t { T (on_sheet (point points.now first)) }
    ensures { result ≡ good points.now r first last }
{
    on_sheet(point_at(points, last)) && good_between(points, r, first, last)
}

// Whether a row that is read at a visit is good, for the range handed down.
#[tactic(auto, using(crate::proofs::Parts::start_off))]
pub fn row_good(points: &[i64], r: Row, first: usize, last: usize) -> bool
    requires { (first < last) × (last < most) × (2 * last + 1 < length points.now) }
    ensures { result ≡ good points.now r first last }
{
    on_sheet(point_at(points, first)) && good_from(points, r, first, last)
}

// Whether a line begins and ends on the sheet.
pub fn ends_on_sheet(points: &[i64]) -> bool
    requires { fewest ≤ points_of points.now }
    ensures { result ≡ ends_good points.now 0 (segments_of points.now) }
{
    let last = points.len() / 2 - 1;
    on_sheet_at(points, 0) & on_sheet_at(points, last)
}

// The split of a good row that is not a leaf's.
pub fn split_of(r: Row) -> usize
    requires { pos 0 ≤ℤ r.split }
    ensures { result ≡ split_in r }
{
    r.split as usize
}
