// Seeds and secrets, as the Rust's v3/seed: made from one number, reproducibly on every machine.
ghost use Rattle.std.specs.Prelude.{◌≡◌, ◌<◌};
ghost use Rattle.secrets.specs.Numbers.{returned};
ghost use Rattle.secrets.specs.Secrets.{mend, repair, stirred, premix, seed_of, reseed_of, seed_cpp, secret_of};

use crate::util::mix::rapid_mix;

// The secrets of the C++ original. `seed` and `seed_cpp` both start from them.
const DEFAULT_SECRETS: [u64; 7] = [
    0x2d358dccaa6c78a5,
    0x8bb84b93962eacc9,
    0x4b33a62ed433d4a3,
    0x4d5a2da51de1aa47,
    0xa0761d6478bd642f,
    0xe7037ed1a0b428db,
    0x90ed1765281c388c,
];

// What `seed_cpp` of 0 gives, written out since a constant's value makes no call.
pub const DEFAULT_RAPID_SECRETS: RapidSecrets = RapidSecrets {
    seed: 0x422765567d8fbfd6,
    secrets: DEFAULT_SECRETS,
};

// The seed and the secrets of a hash.
#[repr(C)]
#[derive(Clone, Copy, Debug, PartialEq, Eq)]
pub struct RapidSecrets {
    pub seed: u64,
    pub secrets: [u64; 7],
}

impl RapidSecrets {
    // Seed and secrets from one number.
    pub fn seed(seed: u64) -> Self
        ensures { result ≡ seed_of seed }
    {
        let start = premix_seed(seed, 0);
        let s0 = premix_seed(start, 0);
        let s1 = premix_seed(s0, 1);
        let s2 = premix_seed(s1, 2);
        let s3 = premix_seed(s2, 3);
        let s4 = premix_seed(s3, 4);
        let s5 = premix_seed(s4, 5);
        let s6 = premix_seed(s5, 6);
        RapidSecrets {
            seed: start,
            secrets: [s0, s1, s2, s3, s4, s5, s6],
        }
    }

    // Another seed with the same secrets.
    pub fn reseed(self) -> Self
        ensures { result ≡ reseed_of self }
    {
        let kept = self.secrets;
        RapidSecrets {
            seed: premix_seed(self.seed, 6),
            secrets: kept,
        }
    }

    // The seed that the C++ original makes of a number, with the default secrets.
    pub fn seed_cpp(seed: u64) -> Self
        ensures { result ≡ seed_cpp seed }
    {
        RapidSecrets {
            seed: rapidhash_seed(seed, 1),
            secrets: DEFAULT_SECRETS,
        }
    }

    // The default secrets, as a value whose contract names what they are.
    pub fn default_secrets() -> Self
        ensures { result ≡ seed_cpp 0 }
    {
        DEFAULT_RAPID_SECRETS
    }

    // The secret at an index.
    pub fn secret(self, index: usize) -> Option<u64>
        ensures { returned result ≡ secret_of self index }
    {
        self.secrets.get(index).copied()
    }
}

// A number stirred with default secret i, and repaired.
fn premix_seed(seed: u64, i: usize) -> u64
    requires { i < 7 }
    ensures { result ≡ premix i seed }
{
    repaired(rapidhash_seed(seed, i))
}

// A number stirred with default secret i.
fn rapidhash_seed(seed: u64, i: usize) -> u64
    requires { i < 7 }
    ensures { result ≡ stirred i seed }
{
    seed ^ rapid_mix(seed ^ DEFAULT_SECRETS[2], DEFAULT_SECRETS[i], false)
}

// Three windows of 16 bits, none of which may be all zero.
fn repaired(seed: u64) -> u64
    ensures { result ≡ repair seed }
{
    mended(mended(mended(seed, 48, 63), 24, 31), 0, 0)
}

// Bit b set where the 16 bits from a place on are all zero.
fn mended(seed: u64, from: u32, b: u32) -> u64
    requires { (from < 64) × (b < 64) }
    ensures { result ≡ mend from b seed }
{
    if (seed >> from) % 0x1_0000 == 0 {
        seed | 1 << b
    } else {
        seed
    }
}
