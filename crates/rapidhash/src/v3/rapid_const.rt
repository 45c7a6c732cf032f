// The one-shot hashes, as the Rust's v3/rapid_const. The path by length, the tail and the last step are the same at
// every size, so they stand here once.
ghost use Rattle.std.specs.Prelude.{◌≡◌, true, false, [], ◌∷◌, ◌<◌, ◌≤◌, length};
ghost use Rattle.secrets.specs.Secrets.{seed_cpp};
ghost use Rattle.rapidhash.specs.Hash.{tail, reached_of, long_ends, ends_of, avalanched, last_of, hash_of};

use crate::util::read::{word4, word8};
use crate::v3::lanes::{all_chunks, joined_lanes, mix_pair};
use secrets::util::mix::{rapid_mix, rapid_mum};
use secrets::v3::seed::RapidSecrets;

// The seed that whole chunks leave, and the place that they reach.
#[derive(Clone, Copy)]
pub struct Reached {
    pub seed: u64,
    pub at: usize,
}

// What the last step needs of a message: two words, the seed so far, and the number of bytes left over.
#[derive(Clone, Copy)]
pub struct Ends {
    pub a: u64,
    pub b: u64,
    pub seed: u64,
    pub r: u64,
}

// The hash with the default seed and secrets.
pub fn rapidhash_v3(data: &[u8]) -> u64
    ensures { result ≡ hash_of 7 true false (seed_cpp 0) «data».now }
{
    rapidhash_v3_seeded(data, RapidSecrets::default_secrets())
}

// The hash with a seed and secrets of the caller's.
pub fn rapidhash_v3_seeded(data: &[u8], secrets: RapidSecrets) -> u64
    ensures { result ≡ hash_of 7 true false secrets «data».now }
{
    rapidhash_v3_inline(data, secrets, true, false, false)
}

// The full hash with every flag. Compact changes no answer, only the shape of the loop.
pub fn rapidhash_v3_inline(
    data: &[u8],
    secrets: RapidSecrets,
    avalanche: bool,
    compact: bool,
    protected: bool,
) -> u64
    ensures { result ≡ hash_of 7 avalanche protected secrets «data».now }
{
    Hasher::<7> {
        secrets,
        avalanche,
        compact,
        protected,
    }
    .rapidhash_core(data)
}

// The hash of five lanes. Its answers are others than the full hash's from 81 bytes on. (Three functions for three
// sizes, with a parameter for each flag: these are the Rust's names, and those that the library for C calls.)
pub fn rapidhash_v3_micro_inline(
    data: &[u8],
    secrets: RapidSecrets,
    avalanche: bool,
    protected: bool,
) -> u64
    ensures { result ≡ hash_of 5 avalanche protected secrets «data».now }
{
    Hasher::<5> {
        secrets,
        avalanche,
        compact: true,
        protected,
    }
    .rapidhash_core(data)
}

// The hash of three lanes. Its answers are others than the full hash's from 49 bytes on.
pub fn rapidhash_v3_nano_inline(
    data: &[u8],
    secrets: RapidSecrets,
    avalanche: bool,
    protected: bool,
) -> u64
    ensures { result ≡ hash_of 3 avalanche protected secrets «data».now }
{
    Hasher::<3> {
        secrets,
        avalanche,
        compact: true,
        protected,
    }
    .rapidhash_core(data)
}

// How a message is hashed in L lanes: seed and secrets, and every flag.
#[derive(Clone, Copy)]
struct Hasher<const L: usize> {
    secrets: RapidSecrets,
    avalanche: bool,
    compact: bool,
    protected: bool,
    ghost some: { 0 < L },
    ghost few: { L ≤ 7 },
}

impl<const L: usize> Hasher<L> {
    // The hash of a message.
    fn rapidhash_core(self, data: &[u8]) -> u64
        ensures { result ≡ hash_of L self.entry.avalanche self.entry.protected self.entry.secrets «data».now }
    {
        let e = self.ends_by_length(data);
        last_step(e, self.secrets.secrets, self.avalanche, self.protected)
    }

    // The length class decides which bytes are read and whether the length goes into the seed.
    fn ends_by_length(self, data: &[u8]) -> Ends
        ensures { result ≡ ends_of L self.entry.protected self.entry.secrets «data».now }
    {
        let n = data.len();
        let r = n as u64;
        let seed = self.secrets.seed;
        match n {
            0 => {
                let a = 0;
                let b = 0;
                Ends { a, b, seed, r }
            }
            1..=3 => {
                let a = u64::from(data[0]) << 45 | u64::from(data[n - 1]);
                let b = u64::from(data[n / 2]);
                Ends { a, b, seed, r }
            }
            4..=7 => {
                let a = word4(data, 0);
                let b = word4(data, n - 4);
                let seed = seed ^ r;
                Ends { a, b, seed, r }
            }
            8..=16 => {
                let a = word8(data, 0);
                let b = word8(data, n - 8);
                let seed = seed ^ r;
                Ends { a, b, seed, r }
            }
            _ => self.rapidhash_core_cold(data),
        }
    }

    // More than 16 bytes: whole chunks, then the tail, then the message's last two words.
    fn rapidhash_core_cold(self, data: &[u8]) -> Ends
        requires { 16 < length «data».now }
        ensures { result ≡ long_ends L self.entry.protected self.entry.secrets «data».now }
    {
        let n = data.len();
        let s = self.secrets.secrets;
        let q = self.after_chunks(data);
        let at = q.at;
        let x = tail_steps(&data[at..], s[1], s[2], q.seed, self.protected);
        let r = (n - at) as u64;
        Ends {
            a: word8(data, n - 16) ^ r,
            b: word8(data, n - 8),
            seed: x,
            r,
        }
    }

    // The chunks of a whole message. Up to one chunk none is mixed, and the seed is the caller's.
    fn after_chunks(self, data: &[u8]) -> Reached
        ensures { result ≡ reached_of L self.entry.protected self.entry.secrets «data».now }
    {
        let seed = self.secrets.seed;
        if data.len() <= 16 * L {
            return Reached { seed, at: 0 };
        }
        let s = self.secrets.secrets;
        let m = all_chunks::<L>(data, s, [seed; 7], self.compact, self.protected);
        Reached {
            seed: joined_lanes::<L>(m.lanes),
            at: m.at,
        }
    }
}

// The bytes left after the chunks, 16 at a time while more than 16 are left, with secrets 1 and 2. The steps stand one
// after another, as the Rust has them: a loop would need a list of six secrets and a place beside it, and be no
// plainer. Longer inputs than a chunk have no step more.
pub fn tail_steps(left: &[u8], s1: u64, s2: u64, seed: u64, protected: bool) -> u64
    ensures { result ≡ tail protected left.now 0 (s2 ∷ s2 ∷ s1 ∷ s1 ∷ s2 ∷ s1 ∷ []) seed }
{
    let r = left.len();
    if r <= 16 {
        return seed;
    }
    let x0 = mix_pair(left, 0, s2, seed, protected);
    if r <= 32 {
        return x0;
    }
    let x1 = mix_pair(left, 16, s2, x0, protected);
    if r <= 48 {
        return x1;
    }
    let x2 = mix_pair(left, 32, s1, x1, protected);
    if r <= 64 {
        return x2;
    }
    let x3 = mix_pair(left, 48, s1, x2, protected);
    if r <= 80 {
        return x3;
    }
    let x4 = mix_pair(left, 64, s2, x3, protected);
    if r <= 96 {
        return x4;
    }
    mix_pair(left, 80, s1, x4, protected)
}

// The last step.
pub fn last_step(ends: Ends, secrets: [u64; 7], avalanche: bool, protected: bool) -> u64
    ensures { result ≡ last_of avalanche protected secrets ends }
{
    let m = rapid_mum(ends.a ^ secrets[1], ends.b ^ ends.seed, protected);
    if avalanche {
        rapidhash_finish(m.low, m.high, ends.r, secrets, protected)
    } else {
        m.low ^ m.high
    }
}

// The avalanche.
fn rapidhash_finish(a: u64, b: u64, remainder: u64, secrets: [u64; 7], protected: bool) -> u64
    ensures { result ≡ avalanched protected secrets a b remainder }
{
    rapid_mix(
        a ^ 0xaaaa_aaaa_aaaa_aaaa,
        b ^ secrets[1] ^ remainder,
        protected,
    )
}
