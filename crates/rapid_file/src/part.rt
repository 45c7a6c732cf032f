// A part of the input, and how it is read and written to a stream.
ghost use Rattle.std.specs.Prelude.{◌≡◌, ◌≤◌, length};

use std::io;
use std::io::Read;
use stream::rapid_stream_hasher::{NotSound, RapidStreamHasher, WriteError};

// Why there is no hash: a read failed, or the stream does not take what came.
#[derive(Drop)]
pub(crate) struct ReadFailed;

// What failed, whatever it was, is told by one fixed line, so the error holds nothing: a failed read,
impl From<io::Error> for ReadFailed {
    fn from(_e: io::Error) -> ReadFailed {
        ReadFailed
    }
}

// a stream that has no hash,
impl From<NotSound> for ReadFailed {
    fn from(_e: NotSound) -> ReadFailed {
        ReadFailed
    }
}

// and a write that is refused.
impl From<WriteError> for ReadFailed {
    fn from(_e: WriteError) -> ReadFailed {
        ReadFailed
    }
}

// The bytes of a part, and how many came. One array for all parts, so that the program takes no memory from a heap.
#[derive(Drop)]
pub(crate) struct Part {
    bytes: [u8; 8192],
    count: usize,
    ghost size: { 8192 ≡ length bytes },
    ghost within: { count ≤ 8192 },
}

impl Part {
    ghost use Rattle.std.specs.Prelude.{◌≡◌, ◌+◌, ◌<◌, ◌↔◌, ℕ, List, Option, take, OnOk, IfOk, MatchResult, IsTrue, Ok};
    ghost use Rattle.std.specs.Io.KnownBytes.{Consumes, IsAtEnd};
    ghost use Rattle.rapid_file.specs.Parts.{part_bytes, progress_of};

    // A part with no byte.
    pub(crate) fn new() -> Part {
        Part {
            bytes: [0; 8192],
            count: 0,
        }
    }

    // Whether more may follow, as it may only behind a full part.
    pub(crate) fn is_full(&self) -> bool
        ensures { IsTrue result ↔ (self.now.count ≡ 8192) }
    {
        self.count == 8192
    }

    // Reads anew until the part is full, the input ends or a read fails. How many bytes a read brings is the reader's,
    // so there is no range to go over.
    pub(crate) fn fill<R: Read>(&mut self, input: &mut R) -> Result<(), ReadFailed>
        ensures bytes { Consumes (R.remaining input.old) (R.remaining input.new) (part_bytes self.new) }
        ensures end { OnOk result (self.new.count < 8192 → IsAtEnd (R.remaining input.new)) }
    {
        self.count = 0;
        while self.count < 8192 {
            let n = self.more(input)?;
            if n == 0 {
                break;
            }
        }
        Ok(())
    }

    // One read, behind the bytes that are there, which stay: how many came.
    fn more<R: Read>(&mut self, input: &mut R) -> Result<usize, ReadFailed>
        requires { self.old.count < 8192 }
        ensures stays { take self.old.count self.new.bytes ≡ take self.old.count self.old.bytes }
        ensures grows { MatchResult result (λ n. self.new.count ≡ self.old.count + n)
            (λ _. self.new.count ≡ self.old.count) }
        ensures bytes { (a : Option (List ℕ)) → Consumes a (R.remaining input.old) (part_bytes self.old)
            → Consumes a (R.remaining input.new) (part_bytes self.new) }
        ensures end { IfOk result (λ n. n ≡ 0 → IsAtEnd (R.remaining input.new)) }
    {
        let count = self.count;
        let n = input.read(&mut self.bytes[count..])?;
        self.count += n;
        Ok(n)
    }

    // The stream with all the part's bytes, unless it does not take them.
    pub(crate) fn written_to(
        &self,
        stream: RapidStreamHasher,
    ) -> Result<RapidStreamHasher, ReadFailed>
        ensures { result ≡ progress_of stream self.now (Ok tt) }
    {
        let written = stream.write(&self.bytes[..self.count]);
        written.outcome?;
        Ok(written.state)
    }
}
