// The messages of the programs that replay the Rust's answers. One rule makes them all, so that none is stored.
#![tactic(auto)]

ghost use Rattle.std.specs.Prelude.{◌≡◌};
ghost use Rattle.samples.specs.Sample.{message_of};

// Bytes in which every place and every length differs, by a rule that the oracle repeats. Only n % 256 counts, and
// taking it first keeps the sum small for any n. A whole array, of which a caller takes the first n: no memory from a
// heap.
pub fn message(n: usize) -> [u8; 1000]
    ensures { result ≡ message_of n }
{
    let mut bytes = [0u8; 1000];
    for (i, byte) in bytes.iter_mut().enumerate() {
        *byte = ((i * 197 + i / 3 * 59 + i / 7 * 113 + n % 256 * 101 + 7) % 256) as u8;
    }
    bytes
}
