// What an answer of `read` comes to: bytes that came are fed, the end of the input is finished, and a failure changes
// nothing. `pass` promises it by the definitions, for every answer; the program above it only reads and writes.
#![tactic(auto)]

ghost use Rattle.std.specs.Prelude.{◌≡◌, ◌+◌, ◌<◌, ◌^◌, length};
ghost use Rattle.records.specs.Holds.{slices_of};
ghost use Rattle.reading.specs.After.{chunk_bytes, AfterBytes};
ghost use Rattle.reading.specs.Passed.{Passed};

use chunks::{feed, finish};
use limits::WRITTEN_BYTES;
use records::Desk;

// Whether to read on, and how many bytes are read by then.
#[derive(Drop)]
pub enum Next {
    More(u64),
    Ended,
    Failed,
}

// What an answer of `read` comes to: how many bytes are to be written, and what is next.
#[derive(Drop)]
pub struct Past {
    pub wrote: usize,
    pub next: Next,
}

// What `read` answered, `got`: nothing where it failed, and else the number of bytes that it put into the chunk.
pub fn pass(
    so_far: u64,
    desk: &mut Desk,
    got: Option<usize>,
    chunk: &[u8],
    out: &mut [u8; WRITTEN_BYTES],
) -> Past
    requires chunk_len { (length chunk.now ≡ chunk_bytes) × (so_far + chunk_bytes < 2 ^ 64) }
    requires after_bytes { AfterBytes so_far desk.old.state (slices_of desk.old) }
    ensures { Passed so_far desk.old.state (slices_of desk.old) out.old result
        desk.new.state (slices_of desk.new) out.new got chunk.now }
{
    match got {
        None => Past {
            wrote: 0,
            next: Next::Failed,
        },
        Some(0) => Past {
            wrote: finish(desk, out),
            next: Next::Ended,
        },
        Some(n) => {
            let came = &chunk[..n.min(chunk.len())];
            Past {
                wrote: feed(desk, came, out),
                next: Next::More(so_far + came.len() as u64),
            }
        }
    }
}
