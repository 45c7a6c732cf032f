// Requests from standard input, one to a line, and an answer to each on a line of its own, in the words of docs/ANSWERS.md,
// which says too how the file `stdin` beside this folder was made and the answers in `stdout`: those about hashes, streams
// and secrets are the Rust's.
#![tactic(auto)]

mod hashes;
mod records;
mod show;
mod words;

use crate::hashes::{hash, secrets, stream_end};
use crate::records::{fingerprinted, found, was_read};
use crate::words::{secrets_of, word};
use rapidhash::v3::lanes::Size;
use std::alloc::{AllocError, Global};
use std::io;
use std::io::Read;

// How many bytes of requests are read. What is beyond stays unread.
const ROOM: u64 = 524288;

fn main(rt: HostRuntime) -> io::Result<()> {
    // Room for all, and for a byte more, where the end is looked for: a list that grows would hold twice as much.
    let mut text = Vec::with_capacity(rt.alloc(), ROOM as usize + 1)?;
    rt.stdin().take(ROOM).read_to_end(&mut text)?;
    for line in text.split(|byte| *byte == b'\n') {
        if asks(line) {
            println!(rt; "{}", answer(rt.alloc(), line)?)?;
        }
    }
    Ok(())
}

// A line that starts with `#`, and an empty one, ask for nothing.
fn asks(line: &[u8]) -> bool {
    line.first().is_some_and(|byte| *byte != b'#')
}

// The answer to a request, by its first word. (A match and no table of functions: each takes other words of the line.)
fn answer(alloc: Global, line: &[u8]) -> Result<String, AllocError> {
    match word(line, 0) {
        b"full" => hash(alloc, line, Size::Full),
        b"micro" => hash(alloc, line, Size::Micro),
        b"nano" => hash(alloc, line, Size::Nano),
        b"stream" => stream_end(alloc, line),
        b"secrets" => secrets(alloc, word(line, 1)),
        b"read" => was_read(alloc, word(line, 1)),
        b"find" => found(alloc, word(line, 1), word(line, 2)),
        b"finger" => fingerprinted(alloc, word(line, 9), secrets_of(line, 1)),
        _ => String::from_str(alloc, "error"),
    }
}
