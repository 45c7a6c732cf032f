// Whole chunks into lanes. The three sizes differ in their number of lanes alone, which is a const parameter, as is
// whether the multiply is protected: the compiler unrolls the lane loop, keeps the lanes in registers and has no flag
// to test there. A place is counted beside the chunks, since a stream asks how far they reach.
ghost use Rattle.std.specs.Prelude.{◌≡◌, ◌+◌, ◌-◌, ◌*◌, ◌<◌, ◌≤◌, length, take};
ghost use Rattle.rapidhash.specs.Hash.{lanes_of, mix_pair, chunk_step, first_of, mixed_of, joined};

use crate::util::read::word8;
use secrets::util::mix::rapid_mix;

// Which of the three hashes: 7, 5 or 3 lanes. The public functions take it as an argument, since a const parameter
// would need a `requires` there, and none has one.
#[derive(Clone, Copy)]
pub enum Size {
    Full,
    Micro,
    Nano,
}

// Lanes that have taken whole chunks, and the place that these reach, from which a stream's bytes wait.
#[derive(Clone, Copy)]
pub struct Mixed {
    pub lanes: [u64; 7],
    pub at: usize,
}

// Every chunk that at least one byte follows, into the given lanes.
pub fn mix_chunks(
    data: &[u8],
    secrets: [u64; 7],
    lanes: [u64; 7],
    size: Size,
    compact: bool,
    protected: bool,
) -> Mixed
    ensures { result ≡ mixed_of (lanes_of size) protected secrets lanes «data».now }
{
    match size {
        Size::Full => all_chunks::<7>(data, secrets, lanes, compact, protected),
        // compact is there for the full hash alone, as in the Rust
        Size::Micro => all_chunks::<5>(data, secrets, lanes, true, protected),
        Size::Nano => all_chunks::<3>(data, secrets, lanes, true, protected),
    }
}

// The same for any number of lanes. What these functions take and ask stays in each of them: held by a struct, by value
// or lent, 60,000 bytes took 1.09 of the Rust's time and not 0.93.
pub(crate) fn all_chunks<const L: usize>(
    data: &[u8],
    secrets: [u64; 7],
    lanes: [u64; 7],
    compact: bool,
    protected: bool,
) -> Mixed
    requires { (0 < L) × (L ≤ 7) }
    ensures { result ≡ mixed_of L protected secrets lanes «data».now }
{
    match (compact, protected) {
        (true, true) => chunk_by_chunk::<L, true>(data, secrets, lanes),
        (true, false) => chunk_by_chunk::<L, false>(data, secrets, lanes),
        (false, true) => two_by_two::<L, true>(data, secrets, lanes),
        (false, false) => two_by_two::<L, false>(data, secrets, lanes),
    }
}

// The compact loop: a chunk a turn. A chunk that a byte follows is one of all bytes but the last.
fn chunk_by_chunk<const L: usize, const PROTECTED: bool>(
    data: &[u8],
    secrets: [u64; 7],
    start: [u64; 7],
) -> Mixed
    requires { (0 < L) × (L ≤ 7) }
    ensures { result ≡ mixed_of L PROTECTED secrets start «data».now }
{
    let mut lanes = start;
    let mut at = 0;
    for chunk in front(data).chunks_exact(16 * L) {
        let next = chunk_step::<L, PROTECTED>(chunk, secrets, lanes);
        lanes = next;
        at += 16 * L;
    }
    Mixed { lanes, at }
}

// The loop that is not compact: two chunks a turn, and at the end one more where one is left.
fn two_by_two<const L: usize, const PROTECTED: bool>(
    data: &[u8],
    secrets: [u64; 7],
    start: [u64; 7],
) -> Mixed
    requires { (0 < L) × (L ≤ 7) }
    ensures { result ≡ mixed_of L PROTECTED secrets start «data».now }
{
    let mut lanes = start;
    let mut at = 0;
    let front = front(data);
    for pair in front.chunks_exact(32 * L) {
        let (first, second) = pair.split_at(16 * L);
        let half = chunk_step::<L, PROTECTED>(first, secrets, lanes);
        let next = chunk_step::<L, PROTECTED>(second, secrets, half);
        lanes = next;
        at += 32 * L;
    }
    if let Some(chunk) = front[at..].get(..16 * L) {
        let next = chunk_step::<L, PROTECTED>(chunk, secrets, lanes);
        return Mixed {
            lanes: next,
            at: at + 16 * L,
        };
    }
    Mixed { lanes, at }
}

// All bytes but the last.
fn front(data: &[u8]) -> &[u8]
    ensures { result.now ≡ take (length «data».now - 1) «data».now }
{
    match data.split_last() {
        Some((_, front)) => front,
        None => data,
    }
}

// The first chunk of the bytes, whether or not one follows it; where they are fewer than a chunk, nothing.
pub fn mix_first(
    bytes: &[u8],
    secrets: [u64; 7],
    lanes: [u64; 7],
    size: Size,
    protected: bool,
) -> [u64; 7]
    ensures { result ≡ first_of (lanes_of size) protected secrets lanes bytes.now }
{
    match size {
        Size::Full => first_chunk::<7>(bytes, secrets, lanes, protected),
        Size::Micro => first_chunk::<5>(bytes, secrets, lanes, protected),
        Size::Nano => first_chunk::<3>(bytes, secrets, lanes, protected),
    }
}

// The same for any number of lanes.
fn first_chunk<const L: usize>(
    bytes: &[u8],
    secrets: [u64; 7],
    lanes: [u64; 7],
    protected: bool,
) -> [u64; 7]
    requires { L ≤ 7 }
    ensures { result ≡ first_of L protected secrets lanes bytes.now }
{
    match bytes.get(..16 * L) {
        Some(chunk) if protected => chunk_step::<L, true>(chunk, secrets, lanes),
        Some(chunk) => chunk_step::<L, false>(chunk, secrets, lanes),
        None => lanes,
    }
}

// One chunk into the first L lanes. In line, so that the lanes stay in registers from chunk to chunk. Over the lanes'
// numbers, since two words, a secret and a lane are taken by one number: `iter_mut` would name only the lane otherwise.
#[inline(always)]
fn chunk_step<const L: usize, const PROTECTED: bool>(
    chunk: &[u8],
    secrets: [u64; 7],
    start: [u64; 7],
) -> [u64; 7]
    requires { (L ≤ 7) × (16 * L ≤ length chunk.now) }
    ensures { result ≡ chunk_step L PROTECTED secrets chunk.now start }
{
    let mut lanes = start;
    for j in 0..L {
        lanes[j] = mix_pair(chunk, 16 * j, secrets[j], lanes[j], PROTECTED);
    }
    lanes
}

// Two words at a place, with a secret, into x.
pub(crate) fn mix_pair(bytes: &[u8], at: usize, secret: u64, x: u64, protected: bool) -> u64
    requires { at + 16 ≤ length bytes.now }
    ensures { result ≡ mix_pair protected bytes.now at secret x }
{
    rapid_mix(
        word8(bytes, at) ^ secret,
        word8(bytes, at + 8) ^ x,
        protected,
    )
}

// The XOR of the lanes of a size.
pub fn join(lanes: [u64; 7], size: Size) -> u64
    ensures { result ≡ joined (lanes_of size) lanes }
{
    match size {
        Size::Full => joined_lanes::<7>(lanes),
        Size::Micro => joined_lanes::<5>(lanes),
        Size::Nano => joined_lanes::<3>(lanes),
    }
}

// The XOR of the first L lanes.
pub(crate) fn joined_lanes<const L: usize>(lanes: [u64; 7]) -> u64
    requires { L ≤ 7 }
    ensures { result ≡ joined L lanes }
{
    let mut x = 0;
    for lane in &lanes[..L] {
        x ^= *lane;
    }
    x
}
