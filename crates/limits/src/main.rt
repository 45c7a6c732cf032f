// What write, finish and reset say of states made by hand at each limit of soundness and of length. A case is a state: its
// name tells the count, by `k` or for the great ones by a word, and what waits, by `m`; `+n` is a write of n bytes to it,
// and `-protected` the run with the other flags. The file `stdout` beside this folder was printed by an independent model
// of the stream's rules, byte by byte, and not by this program: docs/ANSWERS.md says how.
#![tactic(auto)]

mod lines;
mod states;

use crate::lines::{Case, renewed, tried};
use crate::states::{opening, state, with_byte, with_lane};
use std::io;

// The most chunks that a sound state has mixed: with 15 bytes more the stream has 2^64 - 1.
const MOST: u64 = 164703072086692425;

// Makes lanes and a previous chunk's last bytes that no calls lead to.
const FILL: u8 = 251;

fn main(rt: HostRuntime) -> io::Result<()> {
    for protected in [false, true] {
        cases(&rt, protected)?;
    }
    Ok(())
}

// Every case, with one setting of the flags. (Each group takes where it prints and that setting: a struct of the two
// would only rename them.)
fn cases(rt: &impl Print, protected: bool) -> io::Result<()> {
    waiting(rt, protected)?;
    before_first_chunk(rt, protected)?;
    after_first_chunk(rt, protected)?;
    behind_few(rt, protected)?;
    behind_most(rt, protected)?;
    longest(rt, protected)?;
    too_long(rt, protected)?;
    resets_of_sound(rt, protected)?;
    resets_of_unsound(rt, protected)
}

// A chunk is mixed only when a byte follows it. Where more wait than a chunk has, no byte of the buffer is unused, so that
// the number alone is what is wrong.
fn waiting(rt: &impl Print, protected: bool) -> io::Result<()> {
    tried(
        rt,
        &[
            Case::new(
                "opening",
                opening(protected),
                &[0, 16, 17, 112, 113, 224, 225],
            ),
            Case::new("k0-m112", state(0, 112, 0, protected), &[0, 1, 112, 113]),
            Case::new("k0-m113", state(0, 113, 0, protected), &[0, 1]),
            Case::new("k0-mmax", state(0, usize::MAX, 0, protected), &[0, 1]),
            Case::new("k1-m113", state(1, 113, FILL, protected), &[1]),
            Case::new("k1-mmax", state(1, usize::MAX, FILL, protected), &[1]),
        ],
    )
}

// One bit that tells of a chunk before the first.
fn before_first_chunk(rt: &impl Print, protected: bool) -> io::Result<()> {
    let h = state(0, 20, 0, protected);
    tried(
        rt,
        &[
            Case::new("k0-m20", h, &[1]),
            Case::new("k0-m20-lane-first", with_lane(h, 0, 1), &[1]),
            Case::new(
                "k0-m20-lane-last",
                with_lane(h, 6, 0x8000000000000000),
                &[1],
            ),
            Case::new("k0-m20-before-first", with_byte(h, 0, 1), &[1]),
            Case::new("k0-m20-before-last", with_byte(h, 15, 128), &[1]),
            Case::new("k0-m0-lane-last", with_lane(opening(protected), 6, 1), &[0]),
            Case::new(
                "k0-m0-before-last",
                with_byte(opening(protected), 15, 1),
                &[0],
            ),
        ],
    )
}

// A byte must have followed the chunk. The last 16 bytes reach into the chunk until 16 have.
fn after_first_chunk(rt: &impl Print, protected: bool) -> io::Result<()> {
    tried(
        rt,
        &[
            Case::new("k1-m0", state(1, 0, FILL, protected), &[0, 1]),
            Case::new("k1-m0-plain", state(1, 0, 0, protected), &[0]),
            Case::new("k1-m1", state(1, 1, FILL, protected), &[0, 111, 112]),
            Case::new("k1-m1-plain", state(1, 1, 0, protected), &[1]),
            Case::new("k1-m15", state(1, 15, FILL, protected), &[1]),
            Case::new("k1-m16", state(1, 16, FILL, protected), &[1]),
            Case::new("k1-m17", state(1, 17, FILL, protected), &[1]),
            Case::new("k1-m112", state(1, 112, FILL, protected), &[0, 1, 113]),
        ],
    )
}

// The last byte that waits may be zero; the first behind it must be.
fn behind_few(rt: &impl Print, protected: bool) -> io::Result<()> {
    let none = opening(protected);
    let some = state(0, 20, 0, protected);
    let mixed = state(1, 20, FILL, protected);
    tried(
        rt,
        &[
            Case::new("k0-m0-behind-first", with_byte(none, 16, 1), &[0]),
            Case::new("k0-m0-behind-last", with_byte(none, 127, 1), &[0]),
            Case::new("k0-m20-used-zero", with_byte(some, 35, 0), &[1]),
            Case::new("k0-m20-behind-first", with_byte(some, 36, 1), &[1]),
            Case::new("k0-m20-behind-last", with_byte(some, 127, 1), &[1]),
            Case::new("k1-m20-used-zero", with_byte(mixed, 35, 0), &[1]),
            Case::new("k1-m20-behind-first", with_byte(mixed, 36, 128), &[1]),
            Case::new("k1-m20-behind-last", with_byte(mixed, 127, 128), &[1]),
        ],
    )
}

// The buffer's last byte: with 111 waiting the only unused one, with 112 a used one.
fn behind_most(rt: &impl Print, protected: bool) -> io::Result<()> {
    tried(
        rt,
        &[
            Case::new(
                "k0-m111-behind-last",
                with_byte(state(0, 111, 0, protected), 127, 1),
                &[1],
            ),
            Case::new(
                "k1-m111-behind-last",
                with_byte(state(1, 111, FILL, protected), 127, 1),
                &[1],
            ),
            Case::new(
                "k0-m112-all-used",
                with_byte(state(0, 112, 0, protected), 127, 1),
                &[0],
            ),
            Case::new(
                "k1-m112-all-used",
                with_byte(state(1, 112, FILL, protected), 127, 1),
                &[0],
            ),
        ],
    )
}

// Room for one byte, for none, and over the end of a chunk.
fn longest(rt: &impl Print, protected: bool) -> io::Result<()> {
    tried(
        rt,
        &[
            Case::new("most-m14", state(MOST, 14, FILL, protected), &[0, 1, 2]),
            Case::new("most-m15", state(MOST, 15, FILL, protected), &[0, 1, 2]),
            Case::new(
                "under-m112",
                state(MOST - 1, 112, FILL, protected),
                &[0, 15, 16],
            ),
            Case::new(
                "under-m1",
                state(MOST - 1, 1, FILL, protected),
                &[111, 112, 126, 127],
            ),
        ],
    )
}

// The last three counts are such that 112 times the count, taken in 64 bits, would wrap: to 96, to 0, and to 2^64 - 112.
fn too_long(rt: &impl Print, protected: bool) -> io::Result<()> {
    tried(
        rt,
        &[
            Case::new("most-m0", state(MOST, 0, FILL, protected), &[0]),
            Case::new("most-m16", state(MOST, 16, FILL, protected), &[0, 1]),
            Case::new("most-m112", state(MOST, 112, FILL, protected), &[0]),
            Case::new("over-m1", state(MOST + 1, 1, FILL, protected), &[0, 1]),
            Case::new(
                "wrap-m1",
                state(0x1000000000000000, 1, FILL, protected),
                &[0, 1],
            ),
            Case::new("max-m1", state(u64::MAX, 1, FILL, protected), &[0, 1]),
        ],
    )
}

// A reset of what calls lead to.
fn resets_of_sound(rt: &impl Print, protected: bool) -> io::Result<()> {
    renewed(
        rt,
        &[
            Case::new("renewed-opening", opening(protected), &[113]),
            Case::new("renewed-k0-m112", state(0, 112, 0, protected), &[113]),
            Case::new("renewed-k1-m112", state(1, 112, FILL, protected), &[113]),
            Case::new("renewed-most-m15", state(MOST, 15, FILL, protected), &[113]),
        ],
    )
}

// And of states that no calls lead to.
fn resets_of_unsound(rt: &impl Print, protected: bool) -> io::Result<()> {
    renewed(
        rt,
        &[
            Case::new(
                "renewed-k0-mmax",
                state(0, usize::MAX, 0, protected),
                &[113],
            ),
            Case::new(
                "renewed-k0-lane",
                with_lane(state(0, 20, 0, protected), 0, 1),
                &[113],
            ),
            Case::new("renewed-k1-m0", state(1, 0, FILL, protected), &[113]),
            Case::new(
                "renewed-k1-behind",
                with_byte(state(1, 20, FILL, protected), 127, 1),
                &[113],
            ),
            Case::new(
                "renewed-max-m1",
                state(u64::MAX, 1, FILL, protected),
                &[113],
            ),
        ],
    )
}
