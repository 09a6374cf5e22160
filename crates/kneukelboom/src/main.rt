// The question program: it reads a chunk of standard input, passes it on and writes what that printed, to the end of
// the input. `pass` promises by the definitions what every answer of `read` comes to: beside it stand the two calls
// alone.
#![tactic(auto)]

use chunks::opened;
use limits::{CHUNK_BYTES, WRITTEN_BYTES};
use reading::{Next, pass};
use std::io::{Print, Read};

// The bytes read are counted in 64 bits: past this count, those of one chunk more could have no number.
const LAST: u64 = u64::MAX - CHUNK_BYTES as u64;

fn main(rt: HostRuntime) {
    let mut desk = opened();
    let mut chunk = [0u8; CHUNK_BYTES];
    let mut out = [0u8; WRITTEN_BYTES];
    let mut so_far: u64 = 0;
    while so_far <= LAST {
        let got = rt.stdin().read(&mut chunk).ok();
        let past = pass(so_far, &mut desk, got, &chunk, &mut out);
        if rt.write_all(&out[..past.wrote]).is_err() {
            return tell(&rt, "kneukelboom: standard output cannot be written\n");
        }
        match past.next {
            Next::More(bytes) => so_far = bytes,
            Next::Ended => return,
            Next::Failed => return tell(&rt, "kneukelboom: standard input cannot be read\n"),
        }
    }
    tell(&rt, "kneukelboom: standard input does not end\n");
}

// What is told where the program stops before the end of the input.
fn tell(rt: &HostRuntime, what: &str) {
    let _ = rt.stderr().write_all(what.as_bytes());
}
