// Label records, as C calls them: reading, finding and the fingerprint.
ghost use Rattle.std.specs.Prelude.{◌≡◌};
ghost use Rattle.label.specs.Numbers.{told_lookup, told_reading, told_printed};
ghost use Rattle.label.specs.Label.{read_of, find_of, fingerprint_of};
ghost use Rattle.tulgranie.specs.Answers.{told_of};

use secrets::v3::seed::RapidSecrets;
use tulgranie::labels::Answer;

// Whether a record is good.
#[unsafe(no_mangle)]
pub extern "C" fn tulgranie_read(record: &[u8]) -> Answer
    ensures { told_of result ≡ told_reading (read_of «record».now) }
{
    tulgranie::labels::tulgranie_read(record)
}

// The field of the first listed tag that a good record has.
#[unsafe(no_mangle)]
pub extern "C" fn tulgranie_find<'a, 'b>(record: &'a [u8], tags: &'b [u8]) -> Answer
    ensures { told_of result ≡ told_lookup (find_of «record».now tags.now) }
{
    tulgranie::labels::tulgranie_find(record, tags)
}

// The fingerprint of a good record.
#[unsafe(no_mangle)]
pub extern "C" fn tulgranie_fingerprint(record: &[u8], secrets: RapidSecrets) -> Answer
    ensures { told_of result ≡ told_printed (fingerprint_of secrets «record».now) }
{
    tulgranie::labels::tulgranie_fingerprint(record, secrets)
}
