// What stands at one place of a label record: a field's header read and checked, on its own. Reading, finding and the
// fingerprint go from field to field by it alone, so that a new kind of field is a row of the table here.
ghost use Rattle.std.specs.Prelude.{◌≡◌, ◌+◌, ◌≤◌, length};
ghost use Rattle.rapidhash.specs.Words.{word};
ghost use Rattle.label.specs.Numbers.{number_of};
ghost use Rattle.label.specs.Label.{refusal, lengths, table, allows, field_of, header_of};

// Why a record, or a search in it, is refused.
#[derive(Clone, Copy, Debug, PartialEq, Eq)]
pub enum Why {
    TooLong,
    Cut,
    NoSuchTag,
    NotAbove,
    BadLength,
    Missing,
    NotListed,
}

// The number by which a refusal is known outside.
impl From<Why> for u64 {
    ghost from_gives = { λ why number. number ≡ number_of why };

    fn from(why: Why) -> u64 {
        match why {
            Why::TooLong => 5,
            Why::Cut => 6,
            Why::NoSuchTag => 7,
            Why::NotAbove => 8,
            Why::BadLength => 9,
            Why::Missing => 10,
            Why::NotListed => 11,
        }
    }
}

impl Why {
    // The refusal for this reason, about a place.
    pub(crate) fn at(self, place: usize) -> Refusal
        ensures { result ≡ refusal self place }
    {
        Refusal { why: self, place }
    }
}

// A refusal, and the place in the record that it is about.
#[derive(Clone, Copy, Debug, PartialEq, Eq)]
pub struct Refusal {
    pub why: Why,
    pub place: usize,
}

// A field: its tag, the place of its first byte, and where its value starts and how long that is.
#[derive(Clone, Copy, Debug, PartialEq, Eq)]
pub struct Field {
    pub tag: u8,
    pub place: usize,
    pub start: usize,
    pub length: usize,
}

// A row of the table: how long a field's value may be.
#[derive(Clone, Copy, Debug, PartialEq, Eq)]
pub struct Lengths {
    pub least: usize,
    pub most: usize,
}

impl Lengths {
    // The lengths from the least to the most.
    fn between(least: usize, most: usize) -> Lengths
        ensures { Some result ≡ lengths least most }
    {
        Lengths { least, most }
    }

    // Whether a value may be so long.
    fn allows(self, length: usize) -> bool
        ensures { result ≡ allows self length }
    {
        (self.least..=self.most).contains(&length)
    }
}

// The table of fields: none under a tag that no field has.
#[tactic(auto, using(crate::proofs::Table::later_rows), unfolding(crate::specs::Label::table))]
pub fn lengths_of(tag: u8) -> Option<Lengths>
    ensures { result ≡ table tag }
{
    match tag {
        1 => Some(Lengths::between(1, 32)),
        2 => Some(Lengths::between(0, 1024)),
        3 => Some(Lengths::between(1, 64)),
        4 => Some(Lengths::between(0, 4096)),
        0 | 5..=127 => None,
        // 128 to 255, for later use
        _ => Some(Lengths::between(0, 65535)),
    }
}

// The field at a place, where the tag of the field before is given, and 0 where there is none.
#[tactic(auto, using(crate::proofs::HeaderLaws::header_laws))]
pub fn header(record: &[u8], at: usize, before: u8) -> Result<Field, Refusal>
    ensures { result ≡ header_of «record».now at before }
{
    if record.len().saturating_sub(at) < 3 {
        Err(Why::Cut.at(at))
    } else {
        field_at(record, at, before)
    }
}

// The field whose header is known to be there. The order of the tests is the order of the refusals.
#[tactic(auto, using(crate::proofs::HeaderLaws::field_laws))]
fn field_at(record: &[u8], place: usize, before: u8) -> Result<Field, Refusal>
    requires { place + 3 ≤ length «record».now }
    ensures { result ≡ field_of «record».now place before }
{
    let tag = record[place];
    let length = length_at(record, place + 1);
    let above = before < tag;
    let whole = length <= record.len() - (place + 3);
    let Some(row) = lengths_of(tag) else {
        return Err(Why::NoSuchTag.at(place));
    };
    if !above {
        return Err(Why::NotAbove.at(place));
    }
    if !row.allows(length) {
        return Err(Why::BadLength.at(place));
    }
    if !whole {
        return Err(Why::Cut.at(place));
    }
    Ok(Field {
        tag,
        place,
        start: place + 3,
        length,
    })
}

// The two bytes of a length at a place that is known to be there, least significant first.
#[tactic(auto, using(crate::proofs::HeaderLaws::word_two))]
fn length_at(record: &[u8], at: usize) -> usize
    requires { at + 2 ≤ length «record».now }
    ensures { result ≡ word 2 «record».now at }
{
    usize::from(u16::from_le_bytes([record[at], record[at + 1]]))
}
