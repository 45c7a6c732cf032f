// Words, secrets and the one-shot hashes.
ghost use Rattle.std.specs.Prelude.{◌≡◌};
ghost use Rattle.secrets.specs.Secrets.{seed_of, reseed_of, seed_cpp, secret_of};
ghost use Rattle.rapidhash.specs.Words.{word_of};
ghost use Rattle.rapidhash.specs.Hash.{hash_of};
ghost use Rattle.secrets.specs.Numbers.{returned};
ghost use Rattle.tulgranie.specs.Answers.{value_for};

use rapidhash::util::read::{read_u32, read_u64};
use rapidhash::v3::rapid_const::{
    rapidhash_v3_inline, rapidhash_v3_micro_inline, rapidhash_v3_nano_inline,
};
use secrets::v3::seed::RapidSecrets;

// A number of the table, and a value. (Numbers stand for cases here and below, since C has no enum with values.)
#[repr(C)]
#[derive(Clone, Copy, Debug, PartialEq, Eq)]
pub struct Value {
    pub number: u64,
    pub value: u64,
}

// The number and the value of a look-up.
impl From<Option<u64>> for Value {
    ghost from_gives = { λ found r. r ≡ value_for (returned found) };

    fn from(found: Option<u64>) -> Self {
        match found {
            Some(value) => Value { number: 0, value },
            None => Value {
                number: 3,
                value: 0,
            },
        }
    }
}

// The 8 bytes at an offset, least significant first.
pub fn tulgranie_word8(bytes: &[u8], offset: usize) -> Value
    ensures { result ≡ value_for (word_of 8 bytes.now offset) }
{
    read_u64(bytes, offset).into()
}

// The 4 bytes at an offset, least significant first.
pub fn tulgranie_word4(bytes: &[u8], offset: usize) -> Value
    ensures { result ≡ value_for (word_of 4 bytes.now offset) }
{
    read_u32(bytes, offset).into()
}

// Seed and secrets from one number.
pub fn tulgranie_seed(seed: u64) -> RapidSecrets
    ensures { result ≡ seed_of seed }
{
    RapidSecrets::seed(seed)
}

// The seed that the C++ original makes of a number, with the default secrets.
pub fn tulgranie_seed_cpp(seed: u64) -> RapidSecrets
    ensures { result ≡ seed_cpp seed }
{
    RapidSecrets::seed_cpp(seed)
}

// Another seed with the same secrets.
pub fn tulgranie_reseed(secrets: RapidSecrets) -> RapidSecrets
    ensures { result ≡ reseed_of secrets }
{
    secrets.reseed()
}

// The default secrets.
pub fn tulgranie_default_secrets() -> RapidSecrets
    ensures { result ≡ seed_cpp 0 }
{
    RapidSecrets::default_secrets()
}

// The secret at an index.
pub fn tulgranie_secret(secrets: RapidSecrets, index: usize) -> Value
    ensures { result ≡ value_for (secret_of secrets index) }
{
    secrets.secret(index).into()
}

// The full hash.
pub fn tulgranie_full(
    data: &[u8],
    secrets: RapidSecrets,
    avalanche: bool,
    compact: bool,
    protected: bool,
) -> u64
    ensures { result ≡ hash_of 7 avalanche protected secrets «data».now }
{
    rapidhash_v3_inline(data, secrets, avalanche, compact, protected)
}

// The micro hash. (A function for each size: C calls it by this name.)
pub fn tulgranie_micro(data: &[u8], secrets: RapidSecrets, avalanche: bool, protected: bool) -> u64
    ensures { result ≡ hash_of 5 avalanche protected secrets «data».now }
{
    rapidhash_v3_micro_inline(data, secrets, avalanche, protected)
}

// The nano hash. (Likewise.)
pub fn tulgranie_nano(data: &[u8], secrets: RapidSecrets, avalanche: bool, protected: bool) -> u64
    ensures { result ≡ hash_of 3 avalanche protected secrets «data».now }
{
    rapidhash_v3_nano_inline(data, secrets, avalanche, protected)
}
