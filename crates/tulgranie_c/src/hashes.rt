// Words, secrets and the one-shot hashes, as C calls them.
ghost use Rattle.std.specs.Prelude.{◌≡◌};
ghost use Rattle.secrets.specs.Secrets.{seed_of, reseed_of, seed_cpp, secret_of};
ghost use Rattle.rapidhash.specs.Words.{word_of};
ghost use Rattle.rapidhash.specs.Hash.{hash_of};
ghost use Rattle.tulgranie.specs.Answers.{value_for};

use secrets::v3::seed::RapidSecrets;
use tulgranie::hashes::Value;

// The 8 bytes at an offset, least significant first.
#[unsafe(no_mangle)]
pub extern "C" fn tulgranie_word8(bytes: &[u8], offset: usize) -> Value
    ensures { result ≡ value_for (word_of 8 bytes.now offset) }
{
    tulgranie::hashes::tulgranie_word8(bytes, offset)
}

// The 4 bytes at an offset, least significant first.
#[unsafe(no_mangle)]
pub extern "C" fn tulgranie_word4(bytes: &[u8], offset: usize) -> Value
    ensures { result ≡ value_for (word_of 4 bytes.now offset) }
{
    tulgranie::hashes::tulgranie_word4(bytes, offset)
}

// Seed and secrets from one number.
#[unsafe(no_mangle)]
pub extern "C" fn tulgranie_seed(seed: u64) -> RapidSecrets
    ensures { result ≡ seed_of seed }
{
    tulgranie::hashes::tulgranie_seed(seed)
}

// The seed that the C++ original makes of a number, with the default secrets.
#[unsafe(no_mangle)]
pub extern "C" fn tulgranie_seed_cpp(seed: u64) -> RapidSecrets
    ensures { result ≡ seed_cpp seed }
{
    tulgranie::hashes::tulgranie_seed_cpp(seed)
}

// Another seed with the same secrets.
#[unsafe(no_mangle)]
pub extern "C" fn tulgranie_reseed(secrets: RapidSecrets) -> RapidSecrets
    ensures { result ≡ reseed_of secrets }
{
    tulgranie::hashes::tulgranie_reseed(secrets)
}

// The default secrets.
#[unsafe(no_mangle)]
pub extern "C" fn tulgranie_default_secrets() -> RapidSecrets
    ensures { result ≡ seed_cpp 0 }
{
    tulgranie::hashes::tulgranie_default_secrets()
}

// The secret at an index.
#[unsafe(no_mangle)]
pub extern "C" fn tulgranie_secret(secrets: RapidSecrets, index: usize) -> Value
    ensures { result ≡ value_for (secret_of secrets index) }
{
    tulgranie::hashes::tulgranie_secret(secrets, index)
}

// The full hash.
#[unsafe(no_mangle)]
pub extern "C" fn tulgranie_full(
    data: &[u8],
    secrets: RapidSecrets,
    avalanche: bool,
    compact: bool,
    protected: bool,
) -> u64
    ensures { result ≡ hash_of 7 avalanche protected secrets «data».now }
{
    tulgranie::hashes::tulgranie_full(data, secrets, avalanche, compact, protected)
}

// The micro hash.
#[unsafe(no_mangle)]
pub extern "C" fn tulgranie_micro(
    data: &[u8],
    secrets: RapidSecrets,
    avalanche: bool,
    protected: bool,
) -> u64
    ensures { result ≡ hash_of 5 avalanche protected secrets «data».now }
{
    tulgranie::hashes::tulgranie_micro(data, secrets, avalanche, protected)
}

// The nano hash.
#[unsafe(no_mangle)]
pub extern "C" fn tulgranie_nano(
    data: &[u8],
    secrets: RapidSecrets,
    avalanche: bool,
    protected: bool,
) -> u64
    ensures { result ≡ hash_of 3 avalanche protected secrets «data».now }
{
    tulgranie::hashes::tulgranie_nano(data, secrets, avalanche, protected)
}
