// Answers about label records, by the numbers of the rules: 0 done, else why not.
ghost use Rattle.std.specs.Prelude.{◌≤◌, length};

use crate::show::Hex;
use crate::words::bytes_of;
use label::field::Refusal;
use label::finding::{find, part};
use label::fingerprint::fingerprint;
use label::reading::read;
use secrets::v3::seed::RapidSecrets;
use std::alloc::{AllocError, Global};
use std::fmt;
use stream::rapid_stream_hasher::RapidStreamHasher;

// A refusal as an answer has it: number, place and no tag.
#[derive(Drop)]
struct Refused(Refusal);

impl fmt::Display for Refused {
    fn fmt<W: fmt::Write>(&self, f: &mut fmt::Formatter<W>) -> fmt::Result {
        write!(f, "{} {} 0", u64::from(self.0.why), self.0.place)
    }
}

// Number, place and tag.
pub(crate) fn was_read(alloc: Global, text: &[u8]) -> Result<String, AllocError> {
    let record = bytes_of(alloc, text)?;
    match read(&record) {
        Ok(()) => String::from_str(alloc, "0 0 0"),
        Err(r) => format!(in alloc; "{}", Refused(r)),
    }
}

// Number, tag, place and the value's own bytes.
pub(crate) fn found(alloc: Global, text: &[u8], list: &[u8]) -> Result<String, AllocError> {
    let record = bytes_of(alloc, text)?;
    let tags = bytes_of(alloc, list)?;
    let value = Hex(part(&record, &tags));
    match find(&record, &tags) {
        Ok(field) => format!(in alloc; "0 {} {} {value}", field.tag, field.place),
        Err(r) => format!(in alloc; "{} 0 {} {value}", u64::from(r.why), r.place),
    }
}

// Number, place, tag, the fingerprint, and at how many of the places where the values can be cut in two the stream ends
// in that fingerprint too.
pub(crate) fn fingerprinted(
    alloc: Global,
    text: &[u8],
    secrets: RapidSecrets,
) -> Result<String, AllocError> {
    let record = bytes_of(alloc, text)?;
    match fingerprint(&record, secrets) {
        Ok(hash) => {
            let same = cuts(&record, secrets, hash);
            format!(in alloc; "0 0 0 {hash:016x} {same}")
        }
        Err(r) => format!(in alloc; "{} {:016x} 0", Refused(r), 0),
    }
}

// At how many places a cut in two leaves the fingerprint as it is: every place counts where the values are joined.
fn cuts(record: &[u8], secrets: RapidSecrets, wanted: u64) -> usize {
    (0..record.len())
        .filter(|at| cut_at(record, secrets, *at) == Some(wanted))
        .count()
}

// The hash of the values of tags 1 to 4 where each is written in two parts, so that one of them is cut at a place
// inside it, be that inside a letter. A loop: a fold over the stream and what is left of the
// place, as a pair, is no plainer.
fn cut_at(record: &[u8], secrets: RapidSecrets, at: usize) -> Option<u64> {
    let mut stream = RapidStreamHasher::new(secrets, true, false);
    let mut left = at;
    for tag in 1u8..5 {
        let value = part(record, &[tag]);
        let cut = left.min(value.len());
        stream = in_two(stream, value, cut);
        left -= cut;
    }
    ended_hash(stream)
}

// A stream with bytes that are cut at a place.
fn in_two(stream: RapidStreamHasher, value: &[u8], at: usize) -> RapidStreamHasher
    requires { at ≤ length value.now }
{
    let (front, back) = value.split_at(at);
    stream.write(front).state.write(back).state
}

// The hash that a stream ends in, unless it is not sound.
fn ended_hash(stream: RapidStreamHasher) -> Option<u64> {
    stream.finish().ok().map(|end| end.hash)
}
