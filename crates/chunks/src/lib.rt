// The question program, chunk by chunk: what a chunk of bytes prints. `feed` and `finish` say it by the definitions of
// `desk`, however the input is cut into chunks, and what the whole desk holds afterwards.
#![tactic(auto)]

ghost use Rattle.std.specs.Prelude.{◌≡◌, ◌+◌, ◌*◌, ◌≤◌, ◌<◌, ◌^◌, length};
ghost use Rattle.print.specs.Printed.{widest};
ghost use Rattle.desk.specs.Chunks.{begun};
ghost use Rattle.records.specs.Left.{Slices};
ghost use Rattle.records.specs.Built.{built_in, none_built};
ghost use Rattle.records.specs.Holds.{slices_of};
ghost use Rattle.byte.specs.Feeds.{carry_of, fed, Feeds};
ghost use Rattle.chunks.specs.Opened.{zeros};
ghost use Rattle.chunks.specs.Finishes.{Finishes, Leaves};

use byte::{end_text, feed_byte};
use desk::Held;
use limits::{KEPT_BYTES, STORE_NUMBERS, TABLE_NUMBERS};
use records::Desk;
use rules::Line;
use store::State;

pub fn opened() -> Desk
    ensures l_value { (l : Slices) → carry_of result.state l ≡ begun }
    ensures slices { slices_of result ≡ zeros }
    ensures result_value { built_in result.state ≡ none_built }
{
    let state = State {
        target: Line::NoLine,
        a: Held::empty(),
        b: Held::empty(),
        read: 0,
        printed: 0,
        pending: 0,
    };
    Desk {
        state,
        a: [0; STORE_NUMBERS],
        b: [0; STORE_NUMBERS],
        table_a: [0; TABLE_NUMBERS],
        table_b: [0; TABLE_NUMBERS],
        text: [0; KEPT_BYTES],
    }
}

// A chunk of the input: the bytes that it prints, so many, stand at the front of the lent slice.
pub fn feed(desk: &mut Desk, chunk: &[u8], out: &mut [u8]) -> usize
    requires room { widest * length chunk.now ≤ length out.old }
    requires chunk_bound { desk.old.state.read + length chunk.now < 2 ^ 64 }
    ensures { Feeds desk.old.state (slices_of desk.old) chunk.now out.old 0
        (fed desk.new.state result) (slices_of desk.new) out.new }
{
    let mut wrote = 0;
    for &byte in chunk {
        wrote = feed_byte(desk, byte, out, wrote);
    }
    wrote
}

// The end of the input: a last text line may lack its line feed, and ends as if it had one.
pub fn finish(desk: &mut Desk, out: &mut [u8]) -> usize
    requires room { widest ≤ length out.old }
    requires read_bound { desk.old.state.read + 1 < 2 ^ 64 }
    ensures finishes { Finishes desk.old.state (slices_of desk.old) out.old result (slices_of desk.new) out.new }
    ensures leaves { Leaves desk.old.state (slices_of desk.old) out.old
        (fed desk.new.state result) (slices_of desk.new) out.new }
{
    if desk.state.pending == 0 {
        return 0;
    }
    end_text(desk, out, 0)
}
