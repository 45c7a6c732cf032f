// Words out of bytes, as the Rust's util/read: least significant byte first on any host. The two public reads take any
// offset and answer whether the word is there; the hashes read by word8 and word4, whose range the caller knows. (A
// slice and a place in it, as the library's own reads take.)
ghost use Rattle.std.specs.Prelude.{◌≡◌, ◌==◌, ◌+◌, ◌^◌, ◌<◌, ◌≤◌, Some, None, leb, length, take, drop};
ghost use Rattle.std.specs.List.{list_all};
ghost use Rattle.secrets.specs.Choice.{pick, all_are};
ghost use Rattle.secrets.specs.Numbers.{returned};
ghost use Rattle.rapidhash.specs.Words.{word, word_of};

// The 8 bytes at an offset.
pub fn read_u64(bytes: &[u8], offset: usize) -> Option<u64>
    ensures { returned result ≡ word_of 8 bytes.now offset }
{
    Some(u64::from_le_bytes(bytes_at(bytes, offset)?))
}

// The 4 bytes at an offset.
pub fn read_u32(bytes: &[u8], offset: usize) -> Option<u64>
    ensures { returned result ≡ word_of 4 bytes.now offset }
{
    Some(u64::from(u32::from_le_bytes(bytes_at(bytes, offset)?)))
}

// The bytes at an offset, if all of them are there.
fn bytes_at<const N: usize>(bytes: &[u8], offset: usize) -> Option<[u8; N]>
    ensures { result ≡ pick (leb (offset + N) (length bytes.now)) (Some (take N (drop offset bytes.now))) None }
{
    bytes.get(offset..)?.first_chunk().copied()
}

// Whether every byte is zero. By words, with an exit at the first that is not, as each write to a stream tests its
// buffer: with one `fold` over the bytes a stream of 16 bytes took 150 ns, and takes 112 so.
pub fn all_zero(bytes: &[u8]) -> bool
    ensures { result ≡ all_are 0 bytes.now }
{
    let mut left = bytes;
    while let Some((word, rest)) = left.split_first_chunk::<8>() {
        if u64::from_le_bytes(*word) != 0 {
            return false;
        }
        left = rest;
    }
    zero_bytes(left)
}

// The same by bytes, for the few that make no word.
fn zero_bytes(bytes: &[u8]) -> bool
    ensures { result ≡ list_all (λ b. b == 0) bytes.now }
{
    bytes.iter().all(|b| *b == 0)
}

// The 8 bytes at a place that is known to be there: one load.
pub(crate) fn word8(bytes: &[u8], at: usize) -> u64
    requires { at + 8 ≤ length bytes.now }
    ensures { result ≡ word 8 bytes.now at }
{
    u64::from_le_bytes(array_at(bytes, at))
}

// The 4 bytes at a place that is known to be there.
pub(crate) fn word4(bytes: &[u8], at: usize) -> u64
    requires { at + 4 ≤ length bytes.now }
    ensures { (result ≡ word 4 bytes.now at) × (result < 2 ^ 32) }
{
    u64::from(u32::from_le_bytes(array_at(bytes, at)))
}

// The bytes at a place that are known to be there.
fn array_at<const N: usize>(bytes: &[u8], at: usize) -> [u8; N]
    requires { at + N ≤ length bytes.now }
    ensures { result ≡ take N (drop at bytes.now) }
{
    *bytes[at..at + N].as_array().unwrap()
}
