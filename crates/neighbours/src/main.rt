// The program `neighbours`: a feature run file from standard input, its neighbours listing on standard output.
// It reads and prints; everything else is done by `listing`.
#![tactic(auto)]

use listing::listing;
use std::io;
use std::io::{Read, Write};

// One byte more than a file may have, so that a longer one is seen to be too long.
const ENOUGH: u64 = 16385;

fn main(rt: HostRuntime) -> io::Result<()> {
    let mut bytes = Vec::new(rt.alloc());
    let _ = rt.stdin().take(ENOUGH).read_to_end(&mut bytes)?;
    let text = listing(rt.alloc(), &bytes)?;
    // Not print!, which writes 1,024 bytes at a time: a reader that leaves after the first would fail the others.
    rt.stdout().write_all(text.as_bytes())
}
