// What is kept between text lines and within one: the state beside the stores and tables, a point behind the stored
// points of a line, a byte behind the pending bytes of a text line; and the states on the way from a text line to what
// it prints.
#![tactic(auto)]

ghost use Rattle.std.specs.Prelude.{◌≡◌, ◌+◌, ◌≤◌, ◌<◌, ◌^◌, length};
ghost use Rattle.print.specs.Printed.{widest};
ghost use Rattle.print.specs.Put.{Put};
ghost use Rattle.desk.specs.Desk.{said_bytes};
ghost use Rattle.desk.specs.Kept.{kept_bytes, Stored};
ghost use Rattle.store.specs.States.{Adds, Keeps};
ghost use Rattle.store.specs.States.{counted, started, sayingly};

use desk::Held;
use limits::{KEPT_BYTES, ROOM};
use print::put_line;
use rules::{Line, Reply};

// What is carried beside the stores and tables: where points go, how the two lines are held, the text lines read, the
// lines printed, and the bytes kept of the text line that has not ended.
#[derive(Clone, Copy)]
pub struct State {
    pub target: Line,
    pub a: Held,
    pub b: Held,
    pub read: usize,
    pub printed: u64,
    pub pending: usize,
}

// What a text line comes to, and what the program says to it, if anything.
#[derive(Drop)]
pub struct Outcome {
    pub state: State,
    pub said: Option<Reply>,
}

// Each point past the 257th is not stored. The table of the line is not built from its points any more.
#[tactic(auto, using(std::proofs::lemmas::List::take_more_set), unfolding(crate::specs::States::point_left))]
pub fn add_point(held: Held, points: &mut [i64], x: i64, y: i64) -> Held
    requires { Stored held points.old }
    ensures { Adds held points.old x y result points.new }
{
    let count = held.count;
    let unbuilt = Held {
        built: false,
        ..held
    };
    if count < ROOM {
        points[2 * count] = x;
        points[2 * count + 1] = y;
        return Held {
            count: count + 1,
            ..unbuilt
        };
    }
    Held {
        over: true,
        ..unbuilt
    }
}

impl State {
    // A byte behind the pending bytes: of a text line, one byte more than it may have is kept.
    #[tactic(auto, unfolding(crate::specs::States::kept_left))]
    pub fn keep_byte(self, text: &mut [u8], byte: u8) -> State
        requires { (length text.old ≡ kept_bytes) × (self.pending ≤ kept_bytes) }
        ensures { Keeps self text.old byte result text.new }
    {
        let pending = self.pending;
        if pending < KEPT_BYTES {
            text[pending] = byte;
            return State {
                pending: pending + 1,
                ..self
            };
        }
        self
    }

    // The pending bytes are a text line that is read.
    pub fn counted(self) -> State
        requires { self.read + 1 < 2 ^ 64 }
        ensures { result ≡ counted self }
    {
        State {
            read: self.read + 1,
            pending: 0,
            ..self
        }
    }

    // LINE empties its line and directs the following points to it.
    pub fn started(self, line: Line) -> State
        ensures { result ≡ started self line }
    {
        let aimed = State {
            target: line,
            ..self
        };
        match line {
            Line::NoLine => aimed,
            Line::LineA => State {
                a: Held::empty(),
                ..aimed
            },
            Line::LineB => State {
                b: Held::empty(),
                ..aimed
            },
        }
    }

    pub fn saying(self, reply: Reply) -> Outcome
        requires { self.printed < self.read }
        ensures { result ≡ sayingly self reply }
    {
        Outcome {
            state: State {
                printed: self.printed + 1,
                ..self
            },
            said: Some(reply),
        }
    }
}

impl Outcome {
    // The line that is printed, if any.
    pub fn print(self, out: &mut [u8], at: usize) -> usize
        requires { at + widest ≤ length out.old }
        ensures { Put out.old at (said_bytes self.said self.state.printed) out.new result }
    {
        match self.said {
            None => at,
            Some(reply) => put_line(out, at, self.state.printed, reply),
        }
    }
}
