// The question program as definitions: what it keeps, what a text line comes to, and the bytes that it writes for the
// bytes that it reads, however they are cut. The code stands in the crates above.
#![tactic(auto)]

ghost use Rattle.std.specs.Prelude.{◌≡◌};
ghost use Rattle.desk.specs.Kept.{no_points};

// A line's points that are stored, whether a point past the 257th came, and whether the line's table is built from them
// as they are. Two flags, though they exclude each other: the definition's store has the one (`Store.over`), and a
// question sets the other alone.
#[derive(Clone, Copy)]
pub struct Held {
    pub count: usize,
    pub over: bool,
    pub built: bool,
}

impl Held {
    // No points, and so no table.
    pub fn empty() -> Held
        ensures { result ≡ no_points }
    {
        Held {
            count: 0,
            over: false,
            built: false,
        }
    }
}
