// Deliveries as bytes (document 01, "Deliveries").
#![tactic(auto)]

ghost use Rattle.std.specs.Prelude.{◌≡◌, true, ◌+◌, ◌*◌, ◌^◌, ◌≤◌, ◌<◌, length, get_or};
ghost use Rattle.spec.specs.Lists.{all};
ghost use Rattle.spec.specs.Deliveries.{are_sections_right};
ghost use Rattle.spec.specs.computed.Decoded.{short, word, entry_at, entries_from, section_at, section_end, section_start, field_end, read, is_whole};
ghost use Rattle.delivery_format.specs.inside.Sections.{is_right_in};

use spec::Triple;
use terms::is_statement;

// The bytes of an entry.
pub const ENTRY_BYTES: usize = 12;

// The byte at an index, and 0 past the end.
fn byte_at(bytes: &[u8], at: usize) -> usize
    ensures value { result ≡ get_or bytes.now at 0 }
    ensures upper_bound { result < 256 }
{
    if at < bytes.len() {
        bytes[at] as usize
    } else {
        0
    }
}

// The 16-bit number that begins at an index.
pub fn short_at(bytes: &[u8], at: usize) -> usize
    requires { at < 2 ^ 63 }
    ensures value { result ≡ short bytes.now at }
    ensures upper_bound { result < 65536 }
{
    let low = byte_at(bytes, at);
    let high = byte_at(bytes, at + 1);
    low + high * 256
}

// The 32-bit word that begins at an index.
pub fn word_at(bytes: &[u8], at: usize) -> u32
    requires { at + 2 < 2 ^ 63 }
    ensures { result ≡ word bytes.now at }
{
    (short_at(bytes, at) + short_at(bytes, at + 2) * 65536) as u32
}

// The entry that begins at an index: the three words of its triple.
pub fn entry_at(bytes: &[u8], at: usize) -> Triple
    requires { at + 12 ≤ length bytes.now }
    ensures { result ≡ entry_at bytes.now at }
{
    Triple {
        subject: word_at(bytes, at),
        property: word_at(bytes, at + 4),
        object: word_at(bytes, at + 8),
    }
}

// Where the section of entries that begins at an index ends.
pub fn section_end(bytes: &[u8], at: usize) -> usize
    requires { at < 2 ^ 62 }
    ensures value { result ≡ section_end bytes.now at }
    ensures upper_bound { result ≤ at + 786422 }
{
    at + 2 + short_at(bytes, at) * ENTRY_BYTES
}

// Where section k begins.
pub fn section_start(bytes: &[u8], k: usize) -> usize
    requires { k ≤ 4 }
    ensures value { result ≡ section_start bytes.now k }
    ensures upper_bound { result ≤ k * 786422 }
{
    let mut at = 0;
    for _ in 0..k {
        at = section_end(bytes, at);
    }
    at
}

// Where the field that begins at an index ends.
pub fn field_end(bytes: &[u8], at: usize) -> usize
    requires { at < 2 ^ 62 }
    ensures value { result ≡ field_end bytes.now at }
    ensures upper_bound { result ≤ at + 65539 }
{
    at + 4 + short_at(bytes, at + 2)
}

// Whether an entry is right for a section of statements, or of facts.
fn is_right_in(statements: bool, x: Triple) -> bool
    ensures { result ≡ is_right_in statements x }
{
    if statements {
        is_statement(x)
    } else {
        !is_statement(x)
    }
}

// Whether each of the n entries from an index on is right for a section of statements, or of facts.
fn are_entries_right(bytes: &[u8], at: usize, n: usize, statements: bool) -> bool
    requires { at + n * 12 ≤ length bytes.now }
    ensures { result ≡ all (is_right_in statements) (entries_from bytes.now at n) }
{
    for i in 0..n {
        if !is_right_in(statements, entry_at(bytes, at + i * ENTRY_BYTES)) {
            return false;
        }
    }
    true
}

// Whether each entry of section k is right for it: 0 and 2 hold statements, 1 and 3 facts.
fn is_section_right(bytes: &[u8], k: usize, statements: bool) -> bool
    requires k_bound { k < 4 }
    requires bytes_value { is_whole bytes.now ≡ true }
    ensures { result ≡ all (is_right_in statements) (section_at bytes.now (section_start bytes.now k)) }
{
    let at = section_start(bytes, k);
    are_entries_right(bytes, at + 2, short_at(bytes, at), statements)
}

// Question 10: whether each entry's property is right for its section.
pub fn are_sections_right(bytes: &[u8]) -> bool
    requires { is_whole bytes.now ≡ true }
    ensures { result ≡ are_sections_right (read bytes.now) }
{
    is_section_right(bytes, 0, true)
        & (is_section_right(bytes, 1, false)
            & (is_section_right(bytes, 2, true) & is_section_right(bytes, 3, false)))
}
