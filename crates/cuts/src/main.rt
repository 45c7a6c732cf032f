// Messages written to a stream whole and cut in every way, one line for each length: the hash, the number of chunks
// mixed, and how many of the cuts end in both. The file `stdout` beside this folder holds what the Rust's own stream
// hasher makes of the same cuts, printed by the oracle: oracle/README.md says how.
#![tactic(auto)]

ghost use Rattle.std.specs.Prelude.{◌≤◌, length};

use rapidhash::v3::rapid_const::rapidhash_v3_inline;
use samples::message;
use secrets::v3::seed::RapidSecrets;
use std::io;
use stream::rapid_stream_hasher::{Finished, RapidStreamHasher};

// Lengths around the ends of the short path, of one chunk and of two, and two of nine chunks.
const LENGTHS: [usize; 15] = [
    0, 1, 15, 16, 17, 111, 112, 113, 114, 223, 224, 225, 226, 999, 1000,
];

// A message, a stream to write it to, and what that ends in after one write of the whole message, unless it fails.
#[derive(Drop)]
struct Trial<'a> {
    fresh: RapidStreamHasher,
    bytes: &'a [u8],
    wanted: Option<Finished>,
    ghost short: { length bytes.now ≤ 1000 },
}

fn main(rt: HostRuntime) -> io::Result<()> {
    for n in LENGTHS {
        line(&rt, n)?;
    }
    Ok(())
}

// The line of the message of n bytes. Between them the even and the odd lengths have each flag on and off.
fn line(rt: &impl Print, n: usize) -> io::Result<()> {
    let message = message(n);
    let secrets = RapidSecrets::seed(0x0123456789abcdef);
    let fresh = RapidStreamHasher::new(secrets, n % 2 == 0, n % 2 == 1);
    counts(rt, fresh, &message[..n.min(1000)])
}

// One write of the whole message sets what every cut is compared with.
fn counts(rt: &impl Print, fresh: RapidStreamHasher, bytes: &[u8]) -> io::Result<()>
    requires { length bytes.now ≤ 1000 }
{
    let wanted = took(fresh, bytes).and_then(end_of);
    let trial = Trial {
        fresh,
        bytes,
        wanted,
    };
    let n = bytes.len();
    let (hash, count) = wanted.map_or((0, 0), |end| (end.hash, end.count));
    let two = trial.two_parts(fresh, bytes);
    let three = trial.three_parts();
    let single = u8::from(trial.agrees(trial.byte_by_byte()));
    let empty = u8::from(trial.agrees(trial.with_empty_writes()));
    let middle = trial.finished_between();
    let again = u8::from(trial.agrees(trial.again()));
    print!(rt; "{n} {hash:016x} {count} two {two} three {three}")?;
    println!(rt; " bytes {single} empty {empty} middle {middle} again {again}")
}

// The stream with bytes written to it, unless it refuses them.
fn took(stream: RapidStreamHasher, bytes: &[u8]) -> Option<RapidStreamHasher> {
    let written = stream.write(bytes);
    written.outcome.ok()?;
    Some(written.state)
}

// What the stream ends in, unless it is not sound.
fn end_of(stream: RapidStreamHasher) -> Option<Finished> {
    stream.finish().ok()
}

// The stream after the bytes in two parts, the first of them n long.
fn in_two(start: RapidStreamHasher, bytes: &[u8], n: usize) -> Option<RapidStreamHasher> {
    let (front, back) = bytes.split_at_checked(n)?;
    took(took(start, front)?, back)
}

// Whether finish finds the one-shot hash of the bytes.
fn is_hash_of(stream: RapidStreamHasher, bytes: &[u8]) -> bool {
    let settings = stream.settings;
    let secrets = settings.secrets;
    let hash = rapidhash_v3_inline(
        bytes,
        secrets,
        settings.avalanche,
        false,
        settings.protected,
    );
    end_of(stream).is_some_and(|end| end.hash == hash)
}

impl Trial<'_> {
    // Whether a stream ends in what is wanted. One that failed never does.
    fn agrees(&self, stream: Option<RapidStreamHasher>) -> bool {
        let end = stream.and_then(end_of);
        end.is_some() && end == self.wanted
    }

    // How many of the cuts of bytes into two parts end in what is wanted.
    fn two_parts(&self, start: RapidStreamHasher, bytes: &[u8]) -> usize
        requires { length bytes.now ≤ 1000 }
        ensures { result ≤ 1001 }
    {
        (0..=bytes.len())
            .filter(|n| self.agrees(in_two(start, bytes, *n)))
            .count()
    }

    // How many of the cuts into three do: a first part, and what follows it in two.
    fn three_parts(&self) -> usize {
        (0..=self.bytes.len())
            .map(|n| self.from_cut(n))
            .fold(0, usize::saturating_add)
    }

    // How many of the cuts into three that begin with n bytes do.
    fn from_cut(&self, n: usize) -> usize
        ensures { result ≤ 1001 }
    {
        let Some((front, back)) = self.bytes.split_at_checked(n) else {
            return 0;
        };
        let Some(first) = took(self.fresh, front) else {
            return 0;
        };
        self.two_parts(first, back)
    }

    // The stream after the bytes one by one.
    fn byte_by_byte(&self) -> Option<RapidStreamHasher> {
        self.bytes.chunks(1).try_fold(self.fresh, took)
    }

    // The stream after two halves, with empty writes before, between and behind them.
    fn with_empty_writes(&self) -> Option<RapidStreamHasher> {
        let (front, back) = self.bytes.split_at(self.bytes.len() / 2);
        let first = took(took(self.fresh, b"")?, front)?;
        took(took(took(first, b"")?, back)?, b"")
    }

    // How many of the cuts into two parts end in what is wanted with a finish between them, which finds the hash of the
    // first part.
    fn finished_between(&self) -> usize {
        (0..=self.bytes.len())
            .filter(|n| self.agrees(self.finished_after(*n)))
            .count()
    }

    // The stream after the bytes in two parts, if finish finds the hash of the first n bytes between them.
    fn finished_after(&self, n: usize) -> Option<RapidStreamHasher> {
        let (front, back) = self.bytes.split_at_checked(n)?;
        let first = took(self.fresh, front)?;
        if is_hash_of(first, front) {
            took(first, back)
        } else {
            None
        }
    }

    // A used stream, reset, and the message written again in two halves.
    fn again(&self) -> Option<RapidStreamHasher> {
        let used = took(self.fresh, self.bytes)?;
        in_two(used.reset(), self.bytes, self.bytes.len() / 2)
    }
}
