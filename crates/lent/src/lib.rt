// The hasher lent and changed in place, as the Rust has it: thin functions over the by-value core.
#![tactic(auto)]

ghost use Rattle.std.specs.Prelude.{◌≡◌};
ghost use Rattle.stream.specs.State.{opening_of, write_of, finish_of, reset_of, said, ended};

use secrets::v3::seed::RapidSecrets;
use stream::rapid_stream_hasher::{Finished, NotSound, RapidStreamHasher, WriteError};

// The opening state of the same settings, in place.
pub fn reset(hasher: &mut RapidStreamHasher)
    ensures { hasher.new ≡ reset_of hasher.old }
{
    *hasher = hasher.reset();
}

// The hash of the bytes so far, and how many chunks were mixed. The hasher is only looked at.
pub fn finish(hasher: &RapidStreamHasher) -> Result<Finished, NotSound>
    ensures { ended result ≡ finish_of 7 hasher.now }
{
    hasher.finish()
}

// All bytes are taken in place, or none, and why.
pub fn write(hasher: &mut RapidStreamHasher, data: &[u8]) -> Result<(), WriteError>
    ensures { record { state = hasher.new; says = said result } ≡ write_of 7 hasher.old «data».now }
{
    let w = hasher.write(data);
    *hasher = w.state;
    w.outcome
}

// The hash of bytes that come in two parts: a hasher is opened, lent for each part and looked at. What a write refuses
// is left out, as the contract has it; it names no reference to a hasher.
pub fn hash_of_two<'a>(
    secrets: RapidSecrets,
    avalanche: bool,
    protected: bool,
    first: &'a [u8],
    second: &'a [u8],
) -> Result<Finished, NotSound>
    ensures { ended result ≡ finish_of 7 (write_of 7 (write_of 7
        (opening_of (record { secrets = secrets; avalanche = avalanche; protected = protected }))
        first.now).state second.now).state }
{
    let mut hasher = RapidStreamHasher::new(secrets, avalanche, protected);
    let _ = write(&mut hasher, first);
    let _ = write(&mut hasher, second);
    finish(&hasher)
}
