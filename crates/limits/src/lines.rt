// One line for each thing that a call says, by its number: 0 done, 1 not sound, 2 too long.
use crate::states::message_byte;
use std::{array, fmt, io};
use stream::rapid_stream_hasher::{Finished, NotSound, RapidStreamHasher, WriteError};

// A state with a name, and the sizes of the writes that are tried on it.
#[derive(Drop)]
pub(crate) struct Case<'a> {
    name: &'a str,
    state: RapidStreamHasher,
    sizes: &'a [u8],
}

impl<'a> Case<'a> {
    // A case of the table.
    pub(crate) fn new(name: &'a str, state: RapidStreamHasher, sizes: &'a [u8]) -> Case<'a> {
        Case { name, state, sizes }
    }

    // What the lines of the case itself begin with, or those of a write.
    fn title(&self, written: Option<u8>) -> Title<'_> {
        Title {
            name: self.name,
            written,
            protected: self.state.settings.protected,
        }
    }
}

// What a line begins with: the case, the write if there is one, and the flags where they are not those of the first
// run.
#[derive(Drop)]
struct Title<'a> {
    name: &'a str,
    written: Option<u8>,
    protected: bool,
}

impl fmt::Display for Title<'_> {
    fn fmt<W: fmt::Write>(&self, f: &mut fmt::Formatter<W>) -> fmt::Result {
        write!(f, "{}", self.name)?;
        if let Some(n) = self.written {
            write!(f, "+{n}")?;
        }
        if self.protected {
            write!(f, "-protected")?;
        }
        Ok(())
    }
}

// Where a state stands: the bytes that wait, and the chunks mixed.
#[derive(Drop)]
struct Place(RapidStreamHasher);

impl fmt::Display for Place {
    fn fmt<W: fmt::Write>(&self, f: &mut fmt::Formatter<W>) -> fmt::Result {
        write!(f, "waiting {} count {}", self.0.waiting, self.0.count)
    }
}

// What a write says: its number, and the room left.
#[derive(Drop)]
struct Said(Result<(), WriteError>);

impl fmt::Display for Said {
    fn fmt<W: fmt::Write>(&self, f: &mut fmt::Formatter<W>) -> fmt::Result {
        match self.0 {
            Ok(()) => write!(f, "0 0"),
            Err(WriteError::NotSound) => write!(f, "1 0"),
            Err(WriteError::TooLong(room)) => write!(f, "2 {room}"),
        }
    }
}

// What finish says: its number, the hash and the number of chunks.
#[derive(Drop)]
struct Ended(Result<Finished, NotSound>);

impl fmt::Display for Ended {
    fn fmt<W: fmt::Write>(&self, f: &mut fmt::Formatter<W>) -> fmt::Result {
        match self.0 {
            Ok(Finished { hash, count }) => write!(f, "0 {hash:016x} {count}"),
            Err(NotSound) => write!(f, "1 {:016x} 0", 0),
        }
    }
}

// Each state, and what a write of each size says of it.
pub(crate) fn tried(rt: &impl Print, cases: &[Case<'_>]) -> io::Result<()> {
    for case in cases {
        shows_state(rt, &case.title(None), "state", case.state)?;
        shows_finish(rt, &case.title(None), case.state)?;
        writes(rt, case, case.state)?;
    }
    Ok(())
}

// After a reset every write goes as after an opening, whatever the state was.
pub(crate) fn renewed(rt: &impl Print, cases: &[Case<'_>]) -> io::Result<()> {
    for case in cases {
        let next = case.state.reset();
        shows_state(rt, &case.title(None), "reset", next)?;
        writes(rt, case, next)?;
    }
    Ok(())
}

// The state that a write of n bytes gives: where it refuses, the very one that was given.
fn writes(rt: &impl Print, case: &Case<'_>, state: RapidStreamHasher) -> io::Result<()> {
    let bytes = message();
    for size in case.sizes {
        let title = case.title(Some(*size));
        let written = state.write(&bytes[..usize::from(*size)]);
        println!(rt;
            "{title} write {} {}",
            Said(written.outcome),
            Place(written.state)
        )?;
        shows_state(rt, &title, "state", written.state)?;
        shows_finish(rt, &title, written.state)?;
    }
    Ok(())
}

// What a write brings goes on where a full buffer ends, so that no byte of it is one that waits.
fn message() -> [u8; 256] {
    array::from_fn(|i| message_byte(112 + i))
}

// The line of a state.
fn shows_state(
    rt: &impl Print,
    title: &Title<'_>,
    what: &str,
    state: RapidStreamHasher,
) -> io::Result<()> {
    let first = state.buffer[16];
    println!(rt; "{title} {what} {} first {first}", Place(state))
}

// The line of what finish says of a state.
fn shows_finish(rt: &impl Print, title: &Title<'_>, state: RapidStreamHasher) -> io::Result<()> {
    println!(rt; "{title} finish {}", Ended(state.finish()))
}
