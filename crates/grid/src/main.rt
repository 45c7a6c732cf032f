// The three hashes of messages of 0 to 300 bytes with four secrets and every flag, one line for each message and
// secrets. The file `stdout` beside this folder holds the answers of the Rust, printed by the oracle from the same
// messages and secrets: oracle/README.md says how.
#![tactic(auto)]

ghost use Rattle.std.specs.Prelude.{◌≤◌};

use rapidhash::v3::rapid_const::{
    rapidhash_v3_inline, rapidhash_v3_micro_inline, rapidhash_v3_nano_inline,
};
use samples::message;
use secrets::v3::seed::RapidSecrets;
use std::{fmt, io};

// Two flags, each off and on.
const FLAGS: [(bool, bool); 4] = [(false, false), (false, true), (true, false), (true, true)];

// Four hashes, by the flags in that order.
#[derive(Drop)]
struct Hashes([u64; 4]);

impl fmt::Display for Hashes {
    fn fmt<W: fmt::Write>(&self, f: &mut fmt::Formatter<W>) -> fmt::Result {
        let [a, b, c, d] = self.0;
        write!(f, "{a:016x} {b:016x} {c:016x} {d:016x}")
    }
}

fn main(rt: HostRuntime) -> io::Result<()> {
    for n in 0..301 {
        lines(&rt, n)?;
    }
    Ok(())
}

// The lines of the message of n bytes, for four secrets: the default, one from a seed, one as the C++ has it, and all
// zero but the seed.
fn lines(rt: &impl Print, n: usize) -> io::Result<()>
    requires { n ≤ 300 }
{
    let message = message(n);
    let nothing = RapidSecrets {
        seed: 0,
        secrets: [0; 7],
    };
    for secrets in [
        RapidSecrets::default_secrets(),
        RapidSecrets::seed(0x0123456789abcdef),
        RapidSecrets::seed_cpp(0xffffffffffffffff),
        nothing.reseed(),
    ] {
        line(rt, &message[..n], secrets)?;
    }
    Ok(())
}

// Eight hashes of the full size, four of micro, four of nano.
fn line(rt: &impl Print, bytes: &[u8], secrets: RapidSecrets) -> io::Result<()> {
    let plain = full(bytes, secrets, false);
    let avalanched = full(bytes, secrets, true);
    let micro = Hashes(FLAGS.map(|(avalanche, protected)| {
        rapidhash_v3_micro_inline(bytes, secrets, avalanche, protected)
    }));
    let nano = Hashes(FLAGS.map(|(avalanche, protected)| {
        rapidhash_v3_nano_inline(bytes, secrets, avalanche, protected)
    }));
    println!(rt; "{plain} {avalanched} {micro} {nano}")
}

// The hashes of the full size with one flag given, by compact and protected.
fn full(bytes: &[u8], secrets: RapidSecrets, avalanche: bool) -> Hashes {
    Hashes(FLAGS.map(|(compact, protected)| {
        rapidhash_v3_inline(bytes, secrets, avalanche, compact, protected)
    }))
}
