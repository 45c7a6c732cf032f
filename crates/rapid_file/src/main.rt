// The hash of standard input, as the Rust's v3/rapid_file: read into parts of 8,192 bytes, each filled before it is
// written to the stream. Prints 16 hexadecimal digits, or `read failed` where a read fails, an interrupted one too, or
// the input passes 2^64 - 1 bytes.
#![tactic(auto)]

ghost use Rattle.std.specs.Prelude.{◌≡◌, ℕ, List, OnOk, IfSome};
ghost use Rattle.std.specs.Io.KnownBytes.{Appends};
ghost use Rattle.rapid_file.specs.Parts.{CameFrom};
ghost use Rattle.rapid_file.specs.Lines.{line_of, answer_of, IsLineOf};

mod line;
mod part;

use crate::line::Line;
use crate::part::{Part, ReadFailed};
use secrets::v3::seed::RapidSecrets;
use std::io;
use std::io::{Read, Write};
use stream::rapid_stream_hasher::RapidStreamHasher;

// How many full parts a stream has room for.
const FULL_PARTS: u64 = u64::MAX / 8192;

fn main(rt: HostRuntime) -> io::Result<()> {
    let mut input = rt.stdin();
    let mut output = rt.stdout();
    run(&mut input, &mut output)
}

// The program over any reader and any writer: where the input's bytes are known, the line that is written is that of
// their hash, or the fixed one.
fn run<R: Read, W: Write>(input: &mut R, output: &mut W) -> io::Result<()>
    ensures { OnOk result (IfSome (R.remaining input.old) (λ bytes. (line : List ℕ) × IsLineOf bytes line
        × Appends (W.contents output.old) (W.contents output.new) line)) }
{
    let opened = RapidStreamHasher::new(RapidSecrets::default_secrets(), true, false);
    says(output, through_parts(input, opened))
}

// Part after part to the stream. The parts are counted, so that even an endless input ends: behind the last full one
// that fits there is room for 8,191 bytes, and the stream refuses more.
fn through_parts<R: Read>(
    input: &mut R,
    opened: RapidStreamHasher,
) -> Result<RapidStreamHasher, ReadFailed>
    ensures { CameFrom opened result (R.remaining input.old) (R.remaining input.new) }
{
    let mut part = Part::new();
    let mut stream = opened;
    for parts in 0..FULL_PARTS {
        part.fill(input)?;
        let next = part.written_to(stream)?;
        if !part.is_full() {
            return Ok(next);
        }
        stream = next;
    }
    part.fill(input)?;
    part.written_to(stream)
}

// The answer: the hash, or the fixed line, in one write.
fn says<W: Write>(output: &mut W, ended: Result<RapidStreamHasher, ReadFailed>) -> io::Result<()>
    ensures { OnOk result (Appends (W.contents output.old) (W.contents output.new) (line_of ended)) }
{
    let mut line = Line::new();
    match hash_of(ended) {
        Ok(hash) => writeln!(line, "{hash:016x}")?,
        Err(_) => writeln!(line, "read failed")?,
    }
    output.write_all(line.written())
}

// The hash of a stream that nothing failed in.
fn hash_of(ended: Result<RapidStreamHasher, ReadFailed>) -> Result<u64, ReadFailed>
    ensures { result ≡ answer_of ended }
{
    Ok(ended?.finish()?.hash)
}
