// The fingerprint of a label record: the full hash of the values of tags 1 to 4, with avalanche, not protected. The
// stream takes the values one after another from where they stand, so the record is not copied.
ghost use Rattle.std.specs.Prelude.{◌≡◌, true, false, ◌≤◌, length, fold};
ghost use Rattle.rapidhash.specs.Hash.{hash_of};
ghost use Rattle.label.specs.Label.{hashed_of, fingerprint_of};
ghost use Rattle.label.specs.Printing.{with_value};

use crate::field::Refusal;
use crate::finding::value_of;
use crate::reading::{field_with, read};
use secrets::v3::seed::RapidSecrets;
use stream::rapid_stream_hasher::{Finished, RapidStreamHasher};

// The fingerprint of a good record, with the caller's seed and secrets.
#[tactic(auto, using(crate::proofs::FingerLaws::good_short), unfolding(crate::specs::Label::fingerprint_of))]
pub fn fingerprint(record: &[u8], secrets: RapidSecrets) -> Result<u64, Refusal>
    ensures { result ≡ fingerprint_of secrets «record».now }
{
    read(record)?;
    Ok(hash_of_values(record, secrets))
}

// The hash of the values of tags 1 to 4. (The stream is sound whatever was written to it, so that the 0 is never
// answered: `never_unsound`.)
fn hash_of_values(record: &[u8], secrets: RapidSecrets) -> u64
    requires { length «record».now ≤ 8192 }
    ensures { result ≡ hash_of 7 true false secrets (hashed_of «record».now) }
{
    let opening = RapidStreamHasher::new(secrets, true, false);
    match with_values(opening, record, &[1, 2, 3, 4]).finish() {
        Ok(Finished { hash, .. }) => hash,
        Err(_) => 0,
    }
}

// The stream after the values of tags, one after another.
fn with_values(stream: RapidStreamHasher, record: &[u8], tags: &[u8]) -> RapidStreamHasher
    ensures { result ≡ fold (with_value «record».now) stream tags.now }
{
    tags.iter()
        .fold(stream, |stream, tag| with_value(stream, record, *tag))
}

// The stream after a field's value, where the field is there.
#[tactic(auto, using(crate::proofs::Within::found_within))]
fn with_value(stream: RapidStreamHasher, record: &[u8], tag: u8) -> RapidStreamHasher
    ensures { result ≡ with_value «record».now stream tag }
{
    stream
        .write(value_of(record, field_with(record, tag)))
        .state
}
