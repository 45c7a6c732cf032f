// Label records: reading, finding and the fingerprint.
ghost use Rattle.std.specs.Prelude.{◌≡◌};
ghost use Rattle.label.specs.Numbers.{told_refusal, told_lookup, told_reading, told_printed};
ghost use Rattle.label.specs.Label.{read_of, find_of, fingerprint_of};
ghost use Rattle.tulgranie.specs.Answers.{told_of};

use label::field::{Field, Refusal};
use label::finding::find;
use label::fingerprint::fingerprint;
use label::reading::read;
use secrets::v3::seed::RapidSecrets;

// What a call about a record answers: a number of the table, for C, a place, a tag, where a value starts and how long
// it is, and a fingerprint. What a call does not give is 0.
#[repr(C)]
#[derive(Clone, Copy, Debug, Default, PartialEq, Eq)]
pub struct Answer {
    pub number: u64,
    pub place: u64,
    pub tag: u64,
    pub start: u64,
    pub length: u64,
    pub fingerprint: u64,
}

// A refusal's number and place.
impl From<Refusal> for Answer {
    ghost from_gives = { λ refusal answer. told_of answer ≡ told_refusal refusal };

    fn from(refusal: Refusal) -> Answer {
        Answer {
            number: refusal.why.into(),
            place: refusal.place as u64,
            ..Answer::default()
        }
    }
}

// A reading: 0 and nothing else, or a refusal. (This and the two below are not one over any value: what a value becomes
// is another field of the answer each time.)
impl From<Result<(), Refusal>> for Answer {
    ghost from_gives = { λ reading answer. told_of answer ≡ told_reading reading };

    fn from(reading: Result<(), Refusal>) -> Answer {
        match reading {
            Ok(()) => Answer::default(),
            Err(refusal) => refusal.into(),
        }
    }
}

// What a search finds: 0 and the field, or a refusal.
impl From<Result<Field, Refusal>> for Answer {
    ghost from_gives = { λ found answer. told_of answer ≡ told_lookup found };

    fn from(found: Result<Field, Refusal>) -> Answer {
        match found {
            Ok(f) => Answer {
                place: f.place as u64,
                tag: u64::from(f.tag),
                start: f.start as u64,
                length: f.length as u64,
                ..Answer::default()
            },
            Err(refusal) => refusal.into(),
        }
    }
}

// A fingerprint: 0 and the hash, or a refusal.
impl From<Result<u64, Refusal>> for Answer {
    ghost from_gives = { λ printed answer. told_of answer ≡ told_printed printed };

    fn from(printed: Result<u64, Refusal>) -> Answer {
        match printed {
            Ok(hash) => Answer {
                fingerprint: hash,
                ..Answer::default()
            },
            Err(refusal) => refusal.into(),
        }
    }
}

// Whether a record is good.
pub fn tulgranie_read(record: &[u8]) -> Answer
    ensures { told_of result ≡ told_reading (read_of «record».now) }
{
    read(record).into()
}

// The field of the first listed tag that a good record has.
pub fn tulgranie_find<'a, 'b>(record: &'a [u8], tags: &'b [u8]) -> Answer
    ensures { told_of result ≡ told_lookup (find_of «record».now tags.now) }
{
    find(record, tags).into()
}

// The fingerprint of a good record.
pub fn tulgranie_fingerprint(record: &[u8], secrets: RapidSecrets) -> Answer
    ensures { told_of result ≡ told_printed (fingerprint_of secrets «record».now) }
{
    fingerprint(record, secrets).into()
}
