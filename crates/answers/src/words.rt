// The words of a line, and the bytes and numbers that they stand for.
ghost use Rattle.std.specs.Prelude.{◌<◌, ◌≤◌, IfOk};
ghost use Rattle.std.specs.Vec.{vec_len};

use secrets::v3::seed::RapidSecrets;
use std::alloc::{AllocError, Global};
use std::array;

// Room for a record that is too long.
const MOST_BYTES: usize = 8200;

// The word with a number, from 0 on; an empty one where the line has no more.
pub(crate) fn word(line: &[u8], number: usize) -> &[u8] {
    line.split(|glyph| *glyph == b' ')
        .nth(number)
        .unwrap_or(b"")
}

// Two digits make a byte. The word `-` has no byte.
pub(crate) fn bytes_of(alloc: Global, text: &[u8]) -> Result<Vec<u8>, AllocError>
    ensures { IfOk result (λ bytes. vec_len bytes ≤ 8200) }
{
    text.as_chunks::<2>()
        .0
        .iter()
        .take(MOST_BYTES)
        .map(|[high, low]| digit(*high) * 16 + digit(*low))
        .collect(alloc)
}

// The value of a digit, 0 for any other byte. (`to_digit` would take capital letters too.)
fn digit(glyph: u8) -> u8
    ensures { result < 16 }
{
    match glyph {
        b'0'..=b'9' => glyph - b'0',
        b'a'..=b'f' => glyph - b'a' + 10,
        _ => 0,
    }
}

// The seed and the seven secrets, from the word with a number on.
pub(crate) fn secrets_of(line: &[u8], from: usize) -> RapidSecrets
    requires { from < 100 }
{
    RapidSecrets {
        seed: number_of(word(line, from)),
        secrets: array::from_fn(|i| number_of(word(line, from + 1 + i))),
    }
}

// The number that hexadecimal digits make, of its last 64 bits.
pub(crate) fn number_of(text: &[u8]) -> u64 {
    text.iter()
        .fold(0, |n, glyph| n << 4 | u64::from(digit(*glyph)))
}

// A decimal number, at most 1,000.
pub(crate) fn length_of(text: &[u8]) -> usize
    ensures { result ≤ 1000 }
{
    text.iter()
        .fold(0usize, |n, glyph| {
            n.saturating_mul(10)
                .saturating_add(usize::from(digit(*glyph)))
        })
        .min(1000)
}

// Whether the digit at a place of a word is 1.
pub(crate) fn flag(text: &[u8], at: usize) -> bool {
    text.get(at).is_some_and(|digit| *digit == b'1')
}
