// The stream, lent and changed in place.
ghost use Rattle.std.specs.Prelude.{◌≡◌};
ghost use Rattle.stream.specs.State.{opening_of, write_of, finish_of, reset_of, said, ended};
ghost use Rattle.tulgranie.specs.Answers.{said_by, wrote_with, ended_of};

use secrets::v3::seed::RapidSecrets;
use stream::rapid_stream_hasher::{Finished, NotSound, RapidStreamHasher, WriteError};

// What a write says: a number of the table, for C, and the room left beside number 2.
#[repr(C)]
#[derive(Clone, Copy, Debug, PartialEq, Eq)]
pub struct StreamWrote {
    pub number: u64,
    pub room: u64,
}

// What finish finds: a number of the table, for C, the hash and the number of chunks mixed.
#[repr(C)]
#[derive(Clone, Copy, Debug, PartialEq, Eq)]
pub struct StreamEnded {
    pub number: u64,
    pub hash: u64,
    pub count: u64,
}

// What a write says, as a number and the room.
impl From<Result<(), WriteError>> for StreamWrote {
    ghost from_gives = { λ outcome w. said_by w ≡ said outcome };

    fn from(outcome: Result<(), WriteError>) -> StreamWrote {
        match outcome {
            Ok(()) => StreamWrote { number: 0, room: 0 },
            Err(WriteError::NotSound) => StreamWrote { number: 1, room: 0 },
            Err(WriteError::TooLong(room)) => StreamWrote { number: 2, room },
        }
    }
}

// What finish finds, as a number, the hash and the count.
impl From<Result<Finished, NotSound>> for StreamEnded {
    ghost from_gives = { λ found e. ended_of e ≡ ended found };

    fn from(found: Result<Finished, NotSound>) -> StreamEnded {
        match found {
            Ok(Finished { hash, count }) => StreamEnded {
                number: 0,
                hash,
                count,
            },
            Err(NotSound) => StreamEnded {
                number: 1,
                hash: 0,
                count: 0,
            },
        }
    }
}

// The opening state.
pub fn tulgranie_stream_open(
    secrets: RapidSecrets,
    avalanche: bool,
    protected: bool,
) -> RapidStreamHasher
    ensures { result ≡ opening_of (record { secrets = secrets; avalanche = avalanche; protected = protected }) }
{
    RapidStreamHasher::new(secrets, avalanche, protected)
}

// All bytes are taken in place, or none, and why.
pub fn tulgranie_stream_write(stream: &mut RapidStreamHasher, data: &[u8]) -> StreamWrote
    ensures { wrote_with stream.new result ≡ write_of 7 stream.old «data».now }
{
    lent::write(stream, data).into()
}

// The hash of the bytes so far, and how many chunks were mixed. The stream is only looked at.
pub fn tulgranie_stream_finish(stream: &RapidStreamHasher) -> StreamEnded
    ensures { ended_of result ≡ finish_of 7 stream.now }
{
    lent::finish(stream).into()
}

// The opening state of the same settings, in place.
pub fn tulgranie_stream_reset(stream: &mut RapidStreamHasher)
    ensures { stream.new ≡ reset_of stream.old }
{
    lent::reset(stream);
}
