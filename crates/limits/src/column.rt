// Where each number of a row stands, as `numbers` and `row_at` of the definitions say it.
pub const FIRST: usize = 0;

pub const LAST: usize = 1;

pub const SPLIT: usize = 2;

pub const CMIN: usize = 3;

pub const CMAX: usize = 4;

pub const TMIN: usize = 5;

pub const TMAX: usize = 6;

pub const XMIN: usize = 7;

pub const XMAX: usize = 8;

pub const YMIN: usize = 9;

pub const YMAX: usize = 10;
