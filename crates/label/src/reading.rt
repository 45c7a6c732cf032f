// Reading a label record: every field in turn, and then whether the required ones are there. A record is a lent slice
// of any bytes: no function asks anything of it that a type of records could carry.
ghost use Rattle.std.specs.Prelude.{◌≡◌};
ghost use Rattle.label.specs.Label.{walk_of, with_tag, sought_of, complete, read_of};

use crate::field::{Field, Refusal, Why, header};

// The most bytes that a record may have.
const MOST: usize = 8192;

// Whether a record is good.
#[tactic(auto, using(crate::proofs::ReadingLaws::read_laws))]
pub fn read(record: &[u8]) -> Result<(), Refusal>
    ensures { result ≡ read_of «record».now }
{
    if MOST < record.len() {
        return Err(Why::TooLong.at(0));
    }
    walk(record)?;
    if !is_complete(record) {
        return Err(Why::Missing.at(record.len()));
    }
    Ok(())
}

// Whether the required fields are there.
fn is_complete(record: &[u8]) -> bool
    ensures { result ≡ complete (walk_of «record».now).fields }
{
    field_with(record, 1).is_some() && field_with(record, 2).is_some()
}

// How a record's fields end: at its last byte, or at the first that is refused. No field has tag 0, so looking for
// it goes through them all.
#[tactic(auto, using(crate::proofs::Walking::all_passed))]
fn walk(record: &[u8]) -> Result<(), Refusal>
    ensures { result ≡ (walk_of «record».now).ends }
{
    look_for(record, 0)?;
    Ok(())
}

// The field with a tag, of those that can be read.
#[tactic(auto, using(crate::proofs::Walking::field_of_look))]
pub(crate) fn field_with(record: &[u8], tag: u8) -> Option<Field>
    ensures { result ≡ with_tag tag (walk_of «record».now).fields }
{
    look_for(record, tag).ok().flatten()
}

// From field to field, up to the one with a tag: the one loop over a record's fields. None where they end without it.
// The place is no count: each field says where the next one starts. An iterator of fields would be this loop and more.
#[tactic(auto, using(crate::proofs::Walking::look_laws))]
fn look_for(record: &[u8], tag: u8) -> Result<Option<Field>, Refusal>
    ensures { result ≡ sought_of tag (walk_of «record».now) }
{
    let mut at = 0;
    let mut before = 0;
    while at < record.len() {
        let field = header(record, at, before)?;
        if field.tag == tag {
            return Ok(Some(field));
        }
        at = field.start + field.length;
        before = field.tag;
    }
    Ok(None)
}
