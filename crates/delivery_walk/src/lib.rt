// Question 9: whether a delivery is whole, by a reader that walks the extra fields (document 01, "Deliveries").
#![tactic(auto)]

ghost use Rattle.std.specs.Prelude.{◌≡◌, ◌^◌, ◌<◌};
ghost use Rattle.spec.specs.computed.Decoded.{fields_end, is_whole};
ghost use Rattle.delivery_walk.specs.inside.Walked.{counted_end};

use delivery_format::{field_end, section_start, short_at};

// The most bytes of a delivery.
pub const MOST_BYTES: usize = 65536;

// Where the n fields from an index on end.
fn fields_end(bytes: &[u8], at: usize, n: usize) -> usize
    requires at_bound { at < 2 ^ 32 }
    requires n_bound { n < 65536 }
    ensures { result ≡ fields_end bytes.now at n }
{
    let mut end = at;
    for _ in 0..n {
        end = field_end(bytes, end);
    }
    end
}

// Where the fields end whose count stands at an index.
fn counted_end(bytes: &[u8], at: usize) -> usize
    requires { at < 2 ^ 31 }
    ensures { result ≡ counted_end bytes.now at }
{
    fields_end(bytes, at + 2, short_at(bytes, at))
}

// A reader of a delivery: its bytes, and the cursor, the index of the byte that is read next.
#[derive(Clone, Copy)]
struct Reader<'a> {
    bytes: &'a [u8],
    at: usize,
}

impl<'a> Reader<'a> {
    // A reader at an index.
    fn new(bytes: &'a [u8], at: usize) -> Reader<'a>
        ensures { (result.bytes ≡ bytes.entry) × (result.at ≡ at) }
    {
        Reader { bytes, at }
    }

    // The reader moved past the fields whose count stands at its cursor.
    fn past_fields(self) -> Reader<'a>
        requires { self.at < 2 ^ 31 }
        ensures { (result.bytes ≡ self.entry.bytes) × (result.at ≡ counted_end self.entry.bytes.now self.entry.at) }
    {
        Reader {
            bytes: self.bytes,
            at: counted_end(self.bytes, self.at),
        }
    }

    // The cursor.
    fn cursor(self) -> usize
        ensures { result ≡ self.entry.at }
    {
        self.at
    }
}

// Where a reader ends that walks the fields whose count stands at an index.
pub fn walked_end(bytes: &[u8], at: usize) -> usize
    requires { at < 2 ^ 31 }
    ensures { result ≡ counted_end bytes.now at }
{
    Reader::new(bytes, at).past_fields().cursor()
}

// Question 9: whether what is counted ends at the last byte, and there are not too many bytes.
pub fn is_whole(bytes: &[u8]) -> bool
    ensures { result ≡ is_whole bytes.now }
{
    if MOST_BYTES < bytes.len() {
        return false;
    }
    walked_end(bytes, section_start(bytes, 4)) == bytes.len()
}
