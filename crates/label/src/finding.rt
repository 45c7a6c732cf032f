// Finding in a label record: the first tag of a lent list that the record has, and that field's own bytes. Record and
// list stay two parameters: each has a lifetime of its own, and a part has the record's.
ghost use Rattle.std.specs.Prelude.{◌≡◌, ◌+◌, ◌≤◌, length};
ghost use Rattle.std.specs.Result.{result_ok};
ghost use Rattle.label.specs.Label.{walk_of, first_listed, find_of, start_of, length_of, Part};

use crate::field::{Field, Refusal, Why};
use crate::reading::{field_with, read};

// The field of the first listed tag that a good record has. The list's order decides.
#[tactic(auto, unfolding(crate::specs::Label::find_of))]
pub fn find<'a, 'b>(record: &'a [u8], tags: &'b [u8]) -> Result<Field, Refusal>
    ensures { result ≡ find_of «record».now tags.now }
{
    read(record)?;
    first_listed(record, tags).ok_or(Why::NotListed.at(0))
}

// The value of that field, as the record's own bytes; none where the record or the list is refused.
#[tactic(auto, using(crate::proofs::FindLaws::find_within))]
pub fn part<'a, 'b>(record: &'a [u8], tags: &'b [u8]) -> &'a [u8]
    ensures { Part «record».entry (result_ok (find_of «record».now tags.now)) result }
{
    value_of(record, find(record, tags).ok())
}

// The field of the first listed tag that is there, of those that can be read.
#[tactic(auto, using(crate::proofs::Listed::listed_laws))]
fn first_listed<'a, 'b>(record: &'a [u8], tags: &'b [u8]) -> Option<Field>
    ensures { result ≡ first_listed (walk_of «record».now).fields tags.now }
{
    for tag in tags {
        if let Some(field) = field_with(record, *tag) {
            return Some(field);
        }
    }
    None
}

// A field's value, as the record's own bytes: none where there is no field.
#[tactic(auto, using(crate::proofs::Parts::part_laws))]
pub(crate) fn value_of(record: &[u8], field: Option<Field>) -> &[u8]
    requires { start_of field + length_of field ≤ length «record».now }
    ensures { Part «record».entry field result }
{
    match field {
        Some(f) => &record[f.start..f.start + f.length],
        None => &record[0..0],
    }
}
