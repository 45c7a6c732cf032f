// Secrets from seeds that need each repair, reads at the edges of ten bytes, and secrets by every index, a request and
// its answer on each line. The file `stdout` beside this folder holds the Rust's answers to the first, and what the
// rules say of the refusals, which the Rust does not have: docs/ANSWERS.md says how it was made.
#![tactic(auto)]

use rapidhash::util::read::{read_u32, read_u64};
use secrets::v3::seed::RapidSecrets;
use std::{fmt, io};

// A seed and the seven secrets. (As in `answers`, with other spaces: one for both would be a library's, and that would
// have to promise what it prints.)
#[derive(Drop)]
struct Words(RapidSecrets);

impl fmt::Display for Words {
    fn fmt<W: fmt::Write>(&self, f: &mut fmt::Formatter<W>) -> fmt::Result {
        write!(f, "{:016x}", self.0.seed)?;
        for secret in self.0.secrets {
            write!(f, " {secret:016x}")?;
        }
        Ok(())
    }
}

// What a look-up finds: its number and the value, 0 where there is none.
#[derive(Drop)]
struct Told(Option<u64>);

impl fmt::Display for Told {
    fn fmt<W: fmt::Write>(&self, f: &mut fmt::Formatter<W>) -> fmt::Result {
        match self.0 {
            Some(value) => write!(f, "0 {value:016x}"),
            None => write!(f, "3 {:016x}", 0),
        }
    }
}

fn main(rt: HostRuntime) -> io::Result<()> {
    seeds(&rt)?;
    reads(&rt, &[0, 1, 2, 3, 4, 5, 6, 7, 8, 249])?;
    reads(&rt, &[])?;
    each_secret(&rt, RapidSecrets::seed(9))
}

// 0x152b, 0x2ee5 and 0x1012ef give an all-zero window in the low, the middle and the high bits; 0x4b33a62ed433d4a3
// stays itself throughout.
fn seeds(rt: &impl Print) -> io::Result<()> {
    for seed in [0, 0x152b, 0x2ee5, 0x1012ef, 0x4b33a62ed433d4a3, u64::MAX] {
        let made = RapidSecrets::seed(seed);
        let as_cpp = RapidSecrets::seed_cpp(seed);
        println!(rt; "seed {seed:016x} = {}", Words(made))?;
        println!(rt; "seed_cpp {seed:016x} = {}", Words(as_cpp))?;
        println!(rt; "reseed = {}", Words(made.reseed()))?;
    }
    println!(rt; "default = {}", Words(RapidSecrets::default_secrets()))
}

// The first place, the last that is whole, the first that is not, the end, and places whose sum with the width wraps.
fn reads(rt: &impl Print, bytes: &[u8]) -> io::Result<()> {
    for offset in [
        0,
        2,
        3,
        6,
        7,
        10,
        usize::MAX - 7,
        usize::MAX - 3,
        usize::MAX,
    ] {
        answer(rt, "word8", offset, read_u64(bytes, offset))?;
        answer(rt, "word4", offset, read_u32(bytes, offset))?;
    }
    Ok(())
}

// Every secret, the first index that has none, and the last there is.
fn each_secret(rt: &impl Print, secrets: RapidSecrets) -> io::Result<()> {
    for index in [0, 1, 2, 3, 4, 5, 6, 7, usize::MAX] {
        answer(rt, "secret", index, secrets.secret(index))?;
    }
    Ok(())
}

// The line of a look-up: the request, and what it finds.
fn answer(rt: &impl Print, request: &str, place: usize, found: Option<u64>) -> io::Result<()> {
    println!(rt; "{request} {place:016x} = {}", Told(found))
}
