// What the program holds: where points go and how the two lines are held, the numbers of their stores and tables, and
// the text line that has not ended.
ghost use Rattle.records.specs.Built.{StateAsBuilt};
ghost use Rattle.records.specs.Carried.{Bounds};

use limits::{KEPT_BYTES, STORE_NUMBERS, TABLE_NUMBERS};
use store::State;

// What is counted keeps to the sizes, and a line whose table is built stays ready.
#[derive(Drop)]
pub struct Desk {
    pub state: State,
    pub a: [i64; STORE_NUMBERS],
    pub b: [i64; STORE_NUMBERS],
    pub table_a: [i64; TABLE_NUMBERS],
    pub table_b: [i64; TABLE_NUMBERS],
    pub text: [u8; KEPT_BYTES],
    pub ghost bounds: { Bounds state },
    pub ghost built: { StateAsBuilt state a b table_a table_b },
}
