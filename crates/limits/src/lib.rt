// The limits of the rules and the sizes of the question program (docs/RULES.md, section 1.2), each once for the code,
// as the specs of `rules`, `desk` and `words` say them for the definitions. Contracts above compare the two, so that a
// limit that is changed in one of them alone is refused.
#![tactic(auto)]

pub mod column;

// The numbers of a row: column.rt says where each stands.
pub const WIDTH: usize = column::YMAX + 1;

// A line has FEWEST to MOST points, and its table at most MOST_ROWS rows.
pub const FEWEST: usize = 2;

pub const MOST: usize = 4097;

pub const MOST_ROWS: usize = 2 * (MOST - 1) - 1;

// Coordinates are -LIMIT to LIMIT.
pub const LIMIT: i64 = 1000000;

// A distance is 0 to FARTHEST.
pub const FARTHEST: i64 = 2000000;

// The program's store of a line has room for ROOM points; the numbers of a store, and of a table for as many points.
pub const ROOM: usize = 257;

pub const STORE_NUMBERS: usize = 2 * ROOM;

pub const TABLE_NUMBERS: usize = WIDTH * (2 * (ROOM - 1) - 1);

// A text line has at most LONGEST bytes; one more is kept of it, which tells that it is longer.
pub const LONGEST: usize = 80;

pub const KEPT_BYTES: usize = LONGEST + 1;

// The program reads CHUNK_BYTES at once, and writes at most WIDEST bytes for each of them.
pub const CHUNK_BYTES: usize = 1024;

pub const WIDEST: usize = 96;

pub const WRITTEN_BYTES: usize = WIDEST * CHUNK_BYTES;
