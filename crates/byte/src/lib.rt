// A byte in: at a line feed the pending bytes are a text line, whose outcome is printed; any other byte is kept.
// `end_text` and `feed_byte` say it by the definitions of `desk`, and what the whole desk holds afterwards.
#![tactic(auto)]

ghost use Rattle.std.specs.Prelude.{◌≡◌, [], ◌∷◌, ◌+◌, ◌≤◌, ◌<◌, ◌^◌, length};
ghost use Rattle.words.specs.Fields.{line_feed};
ghost use Rattle.print.specs.Printed.{widest};
ghost use Rattle.records.specs.Holds.{slices_of};
ghost use Rattle.byte.specs.Feeds.{fed, Feeds};

use records::Desk;
use store::Outcome;

// A text line ends: the pending bytes are taken, and their outcome is printed behind what is written so far. The bytes
// are copied out of the desk, since it is lent whole.
pub fn end_text(desk: &mut Desk, out: &mut [u8], wrote: usize) -> usize
    requires room { wrote + widest ≤ length out.old }
    requires read_bound { desk.old.state.read + 1 < 2 ^ 64 }
    ensures { Feeds desk.old.state (slices_of desk.old) (line_feed ∷ []) out.old wrote
        (fed desk.new.state result) (slices_of desk.new) out.new }
{
    let text = desk.text;
    let said = desk.take_text(&text[..desk.state.pending]);
    let outcome = Outcome {
        state: desk.state,
        said,
    };
    outcome.print(out, wrote)
}

// A line feed ends the text line, any other byte is kept. Of the state only how many bytes are pending changes: with
// all of it written back, text took two to four times as long to read.
pub fn feed_byte(desk: &mut Desk, byte: u8, out: &mut [u8], wrote: usize) -> usize
    requires room { wrote + widest ≤ length out.old }
    requires read_bound { desk.old.state.read + 1 < 2 ^ 64 }
    ensures { Feeds desk.old.state (slices_of desk.old) (byte ∷ []) out.old wrote
        (fed desk.new.state result) (slices_of desk.new) out.new }
{
    if byte == b'\n' {
        return end_text(desk, out, wrote);
    }
    desk.state.pending = desk.state.keep_byte(&mut desk.text, byte).pending;
    wrote
}
