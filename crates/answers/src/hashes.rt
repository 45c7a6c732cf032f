// Answers about hashes, streams and secrets of messages that a rule makes.
ghost use Rattle.std.specs.Prelude.{◌≤◌};

use crate::show::All;
use crate::words::{flag, length_of, number_of, word};
use rapidhash::v3::lanes::Size;
use rapidhash::v3::rapid_const::{
    rapidhash_v3_inline, rapidhash_v3_micro_inline, rapidhash_v3_nano_inline,
};
use samples::message;
use secrets::v3::seed::RapidSecrets;
use std::alloc::{AllocError, Global};
use stream::rapid_stream_hasher::{Finished, NotSound, RapidStreamHasher};

// What a request about a hash begins with: KIND FLAGS SEED LENGTH. The flags are avalanche, compact and protected.
#[derive(Drop)]
struct Asked {
    avalanche: bool,
    compact: bool,
    protected: bool,
    secrets: RapidSecrets,
    length: usize,
    ghost within: { length ≤ 1000 },
}

impl Asked {
    // What the words of a line ask for.
    fn of(line: &[u8]) -> Asked {
        let flags = word(line, 1);
        Asked {
            avalanche: flag(flags, 0),
            compact: flag(flags, 1),
            protected: flag(flags, 2),
            secrets: RapidSecrets::seed(number_of(word(line, 2))),
            length: length_of(word(line, 3)),
        }
    }
}

// KIND FLAGS SEED LENGTH: the hash with the secrets of the seed.
pub(crate) fn hash(alloc: Global, line: &[u8], size: Size) -> Result<String, AllocError> {
    let asked = Asked::of(line);
    let bytes = message(asked.length);
    format!(in alloc; "{:016x}", hash_of(&bytes[..asked.length], &asked, size))
}

// The hash of bytes in a size, by the name that the Rust has for it.
fn hash_of(bytes: &[u8], asked: &Asked, size: Size) -> u64 {
    let secrets = asked.secrets;
    let avalanche = asked.avalanche;
    let protected = asked.protected;
    match size {
        Size::Full => rapidhash_v3_inline(bytes, secrets, avalanche, asked.compact, protected),
        Size::Micro => rapidhash_v3_micro_inline(bytes, secrets, avalanche, protected),
        Size::Nano => rapidhash_v3_nano_inline(bytes, secrets, avalanche, protected),
    }
}

// stream FLAGS SEED LENGTH CUT CUT: the hash and the number of chunks of the message written in three parts.
pub(crate) fn stream_end(alloc: Global, line: &[u8]) -> Result<String, AllocError> {
    let asked = Asked::of(line);
    let message = message(asked.length);
    let bytes = &message[..asked.length];
    let second = length_of(word(line, 5)).min(bytes.len());
    let first = length_of(word(line, 4)).min(second);
    let opened = RapidStreamHasher::new(asked.secrets, asked.avalanche, asked.protected);
    let one = opened.write(&bytes[..first]).state;
    let two = one.write(&bytes[first..second]).state;
    ended(alloc, two.write(&bytes[second..]).state)
}

// What a stream ends in.
fn ended(alloc: Global, stream: RapidStreamHasher) -> Result<String, AllocError> {
    match stream.finish() {
        Ok(Finished { hash, count }) => format!(in alloc; "{hash:016x} {count}"),
        Err(NotSound) => String::from_str(alloc, "not sound"),
    }
}

// secrets SEED: the number, and the seed and the seven secrets of `seed`, of `seed_cpp` and of the first one reseeded.
pub(crate) fn secrets(alloc: Global, text: &[u8]) -> Result<String, AllocError> {
    let seed = number_of(text);
    let made = RapidSecrets::seed(seed);
    let as_cpp = RapidSecrets::seed_cpp(seed);
    format!(in alloc;
        "{seed:016x}{}{}{}",
        All(made),
        All(as_cpp),
        All(made.reseed())
    )
}
