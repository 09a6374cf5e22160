// What a text line comes to: a point stored, a question answered over the two stores, a refusal. `take_text` says it by
// the definitions of `desk`, and what the whole desk holds afterwards.
#![tactic(auto)]

mod kept;

ghost use Rattle.std.specs.Prelude.{◌≡◌, ◌+◌, ◌<◌, ◌^◌};
ghost use Rattle.store.specs.States.{sayingly};
ghost use Rattle.records.specs.Left.{both};
ghost use Rattle.records.specs.Takes.{outcome_of, point_said, TakesPoint, TakesRecord, TakesText};
ghost use Rattle.records.specs.Holds.{numbers_of, SameRest};

use answers::reply;
pub use kept::Desk;
use limits::ROOM;
use ready::refused;
use rules::{Line, Reply};
use store::{State, add_point};
use words::{Record, record_of};

// What is said counts one printed line more.
fn say(state: &mut State, reply: Reply) -> Option<Reply>
    requires { state.old.printed < state.old.read }
    ensures { outcome_of state.new result ≡ sayingly state.old reply }
{
    let outcome = state.saying(reply);
    *state = outcome.state;
    outcome.said
}

// A point is on its line: nothing is said where there was room behind this many, and else refusal 13.
fn pointed(state: &mut State, line: Line, count: usize) -> Option<Reply>
    requires { state.old.printed < state.old.read }
    ensures { outcome_of state.new result ≡ point_said state.old line count }
{
    if count < ROOM {
        return None;
    }
    let refusal = refused(13, line, state.read, 0);
    say(state, refusal)
}

impl Desk {
    // Points before any LINE are refusal 12, and each past the 257th is refusal 13. Each line's fields are named:
    // whoever was lent either line's as `&mut` could leave a table told as built that is not.
    fn take_point(&mut self, x: i64, y: i64) -> Option<Reply>
        requires { self.old.state.printed < self.old.state.read }
        ensures takes { TakesPoint self.old.state x y (both self.old.a self.old.b)
            (outcome_of self.new.state result) (both self.new.a self.new.b) }
        ensures rest { SameRest self.old self.new }
    {
        let state = self.state;
        match state.target {
            Line::NoLine => say(&mut self.state, refused(12, Line::NoLine, state.read, 0)),
            Line::LineA => {
                self.state.a = add_point(state.a, &mut self.a, x, y);
                pointed(&mut self.state, Line::LineA, state.a.count)
            }
            Line::LineB => {
                self.state.b = add_point(state.b, &mut self.b, x, y);
                pointed(&mut self.state, Line::LineB, state.b.count)
            }
        }
    }

    // What a record comes to.
    fn take_record(&mut self, record: Record) -> Option<Reply>
        requires { self.old.state.printed < self.old.state.read }
        ensures takes { TakesRecord self.old.state «record» (numbers_of self.old)
            (outcome_of self.new.state result) (numbers_of self.new) }
        ensures text_same { self.new.text ≡ self.old.text }
    {
        let state = self.state;
        match record {
            Record::Start(line) => {
                self.state = state.started(line);
                None
            }
            Record::Pt(x, y) => self.take_point(x, y),
            _ => {
                let replied = reply(
                    record,
                    state.read,
                    state.a,
                    &self.a,
                    &mut self.table_a,
                    state.b,
                    &self.b,
                    &mut self.table_b,
                );
                self.state.a.built = replied.built.a;
                self.state.b.built = replied.built.b;
                say(&mut self.state, replied.reply)
            }
        }
    }

    // A text line, and what is said to it, if anything.
    pub fn take_text(&mut self, text: &[u8]) -> Option<Reply>
        requires { self.old.state.read + 1 < 2 ^ 64 }
        ensures takes { TakesText self.old.state text.now (numbers_of self.old)
            (outcome_of self.new.state result) (numbers_of self.new) }
        ensures text_same { self.new.text ≡ self.old.text }
    {
        self.state = self.state.counted();
        self.take_record(record_of(text))
    }
}
