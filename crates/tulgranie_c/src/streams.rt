// The stream, as C calls it: lent and changed in place.
ghost use Rattle.std.specs.Prelude.{◌≡◌};
ghost use Rattle.stream.specs.State.{opening_of, write_of, finish_of, reset_of};
ghost use Rattle.tulgranie.specs.Answers.{wrote_with, ended_of};

use secrets::v3::seed::RapidSecrets;
use stream::rapid_stream_hasher::RapidStreamHasher;
use tulgranie::streams::{StreamEnded, StreamWrote};

// The opening state.
#[unsafe(no_mangle)]
pub extern "C" fn tulgranie_stream_open(
    secrets: RapidSecrets,
    avalanche: bool,
    protected: bool,
) -> RapidStreamHasher
    ensures { result ≡ opening_of (record { secrets = secrets; avalanche = avalanche; protected = protected }) }
{
    tulgranie::streams::tulgranie_stream_open(secrets, avalanche, protected)
}

// All bytes are taken in place, or none, and why.
#[unsafe(no_mangle)]
pub extern "C" fn tulgranie_stream_write(stream: &mut RapidStreamHasher, data: &[u8]) -> StreamWrote
    ensures { wrote_with stream.new result ≡ write_of 7 stream.old «data».now }
{
    tulgranie::streams::tulgranie_stream_write(stream, data)
}

// The hash of the bytes so far, and how many chunks were mixed. The stream is only looked at.
#[unsafe(no_mangle)]
pub extern "C" fn tulgranie_stream_finish(stream: &RapidStreamHasher) -> StreamEnded
    ensures { ended_of result ≡ finish_of 7 stream.now }
{
    tulgranie::streams::tulgranie_stream_finish(stream)
}

// The opening state of the same settings, in place.
#[unsafe(no_mangle)]
pub extern "C" fn tulgranie_stream_reset(stream: &mut RapidStreamHasher)
    ensures { stream.new ≡ reset_of stream.old }
{
    tulgranie::streams::tulgranie_stream_reset(stream);
}
