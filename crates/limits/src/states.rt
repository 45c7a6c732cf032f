// States made by hand. Most are such that no calls lead to them: the contracts speak of those too.
ghost use Rattle.std.specs.Prelude.{◌<◌};

use secrets::v3::seed::RapidSecrets;
use std::array;
use stream::rapid_stream_hasher::{RapidStreamHasher, Settings};

// Avalanche is on exactly where protected is off, so that two runs see each flag on and off.
fn settings(protected: bool) -> Settings {
    Settings {
        secrets: RapidSecrets::seed(0x0123456789abcdef),
        avalanche: !protected,
        protected,
    }
}

// A stream as it is opened.
pub(crate) fn opening(protected: bool) -> RapidStreamHasher {
    let s = settings(protected);
    RapidStreamHasher::new(s.secrets, s.avalanche, s.protected)
}

// The filling tells the lanes and the first 16 bytes: 0 gives them as at an opening, one near 255 makes all differ.
pub(crate) fn state(count: u64, waiting: usize, fill: u8, protected: bool) -> RapidStreamHasher {
    let s = settings(protected);
    RapidStreamHasher {
        settings: s,
        lanes: lanes(s.secrets.seed, fill),
        count,
        waiting,
        buffer: buffer(waiting, fill),
    }
}

// Seven lanes, by the filling.
fn lanes(seed: u64, fill: u8) -> [u64; 7] {
    let step = u64::from(fill) * 0x0001000100010001;
    [1, 2, 3, 4, 5, 6, 7].map(|i| seed ^ step.wrapping_mul(i))
}

// A buffer in which so many bytes wait.
fn buffer(waiting: usize, fill: u8) -> [u8; 128] {
    array::from_fn(|i| held(i, waiting, fill))
}

// What stands at a place of the buffer.
fn held(i: usize, waiting: usize, fill: u8) -> u8
    requires { i < 128 }
{
    if i < 16 {
        return fill / (i as u8 + 1);
    }
    if i - 16 < waiting {
        return message_byte(i - 16);
    }
    0
}

// None is zero: a byte that is not cleared away makes its state unsound, and so is seen.
pub(crate) fn message_byte(i: usize) -> u8
    requires { i < 512 }
{
    ((i * 197 + i / 3 * 59 + 7) % 255 + 1) as u8
}

// The state with some bits of one lane turned.
pub(crate) fn with_lane(h: RapidStreamHasher, at: usize, bits: u64) -> RapidStreamHasher
    requires { at < 7 }
{
    let mut next = h;
    next.lanes[at] ^= bits;
    next
}

// The state with another byte at one place of the buffer.
pub(crate) fn with_byte(h: RapidStreamHasher, at: usize, byte: u8) -> RapidStreamHasher
    requires { at < 128 }
{
    let mut next = h;
    next.buffer[at] = byte;
    next
}
