// The delivery number, among the extra fields of a delivery's bytes (document 01, "Deliveries").
#![tactic(auto)]

ghost use Rattle.std.specs.Prelude.{◌≡◌, true, ◌≤◌};
ghost use Rattle.spec.specs.Deliveries.{number_fields, is_number_right, number_of};
ghost use Rattle.spec.specs.computed.Decoded.{fields_end, read, is_whole};
ghost use Rattle.delivery_number.specs.inside.Found.{ExtraFields, FromNumber};

use delivery_format::{field_end, section_start, short_at, word_at};

// The tag of the field that holds the delivery number, and that field's length.
pub const NUMBER_TAG: usize = 1;

pub const NUMBER_LENGTH: usize = 4;

// Some extra fields: the index where the first begins, and how many there are.
#[derive(Clone, Copy)]
pub struct Fields {
    pub at: usize,
    pub count: usize,
}

// The extra fields: the fifth section.
fn extra_fields(bytes: &[u8]) -> Fields
    ensures { ExtraFields bytes.now result }
{
    let at = section_start(bytes, 4);
    Fields {
        at: at + 2,
        count: short_at(bytes, at),
    }
}

// Of the n fields from an index on, those from the first with tag 1 on: all other tags are stepped over.
fn from_number(bytes: &[u8], at: usize, n: usize) -> Fields
    requires { fields_end bytes.now at n ≤ 65536 }
    ensures { FromNumber bytes.now at n result }
{
    let mut place = at;
    for i in 0..n {
        if short_at(bytes, place) == NUMBER_TAG {
            return Fields {
                at: place,
                count: n - i,
            };
        }
        place = field_end(bytes, place);
    }
    Fields {
        at: place,
        count: 0,
    }
}

// Question 11: whether tag 1 is there at most once, and of length 4.
pub fn is_number_right(bytes: &[u8]) -> bool
    requires { is_whole bytes.now ≡ true }
    ensures { result ≡ is_number_right (number_fields (read bytes.now).fields) }
{
    let f = extra_fields(bytes);
    let found = from_number(bytes, f.at, f.count);
    if found.count == 0 {
        return true;
    }
    let at = found.at;
    if short_at(bytes, at + 2) != NUMBER_LENGTH {
        return false;
    }
    let more = from_number(bytes, field_end(bytes, at), found.count - 1);
    more.count == 0
}

// The delivery number, 0 where there is none.
pub fn number(bytes: &[u8]) -> u32
    requires bytes_value { is_whole bytes.now ≡ true }
    requires bytes_value_2 { is_number_right (number_fields (read bytes.now).fields) ≡ true }
    ensures { result ≡ number_of (number_fields (read bytes.now).fields) }
{
    let f = extra_fields(bytes);
    let found = from_number(bytes, f.at, f.count);
    if found.count == 0 {
        return 0;
    }
    let at = found.at;
    word_at(bytes, at + 4)
}
