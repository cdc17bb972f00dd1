// Texts and entries in the bytes of a dictionary.
#![tactic(auto)]

ghost use Rattle.std.specs.Prelude.{◌≡◌, ◌+◌, ◌^◌, ◌≤◌, ◌<◌, length, take, drop};
ghost use Rattle.spec_ntriples.specs.Texts.{is_same_text};
ghost use Rattle.spec_ntriples.specs.Dictionary.{bytes_number, front_term};
ghost use Rattle.dictionary_bytes.specs.inside.Entries.{length_at, text_at};

// The bytes of an entry in front of its text: its term and the text's length.
pub const HEADER: usize = 12;

// How far a dictionary is filled: the index behind its last entry, and the next number of each kind.
#[derive(Clone, Copy)]
pub struct Filled {
    pub end: usize,
    pub uris: u32,
    pub blanks: u32,
    pub literals: u32,
}

pub const TERM_BYTES: usize = 4;

pub const LENGTH_BYTES: usize = 8;

// Whether the n bytes from one index on are those from another on.
pub fn is_same(a: &[u8], from: usize, b: &[u8], at: usize, n: usize) -> bool
    requires n_in_bounds { from + n ≤ length a.now }
    requires n_in_bounds_2 { at + n ≤ length b.now }
    ensures { result ≡ is_same_text (take n (drop from a.now)) (take n (drop at b.now)) }
{
    a[from..from + n] == b[at..at + n]
}

// The number of n bytes from an index on, the lowest first.
fn number_at(bytes: &[u8], at: usize, n: usize) -> usize
    requires n_in_bounds { at + n ≤ length bytes.now }
    requires n_bound { n ≤ 8 }
    ensures value { result ≡ bytes_number (take n (drop at bytes.now)) }
    ensures upper_bound { result < 256 ^ n }
{
    let mut number = 0;
    for i in (at..at + n).rev() {
        number = number * 256 + usize::from(bytes[i]);
    }
    number
}

// The length of the text of the entry at an index, in eight bytes.
pub fn length_at(dictionary: &[u8], at: usize) -> usize
    requires { at + 12 ≤ length dictionary.now }
    ensures { result ≡ length_at dictionary.now at }
{
    number_at(dictionary, at + TERM_BYTES, LENGTH_BYTES)
}

// Whether the entry at an index has as text the n bytes from an index on.
pub fn has_text(dictionary: &[u8], at: usize, bytes: &[u8], from: usize, n: usize) -> bool
    requires at_in_bounds { at + 12 + length_at dictionary.now at ≤ length dictionary.now }
    requires n_in_bounds { from + n ≤ length bytes.now }
    ensures { result ≡ is_same_text (text_at dictionary.now at) (take n (drop from bytes.now)) }
{
    if length_at(dictionary, at) != n {
        return false;
    }
    is_same(dictionary, at + HEADER, bytes, from, n)
}

// The term of the entry at an index: four bytes, the lowest first.
pub fn term_at(dictionary: &[u8], at: usize) -> u32
    requires { at + 4 ≤ length dictionary.now }
    ensures { result ≡ front_term (drop at dictionary.now) }
{
    number_at(dictionary, at, TERM_BYTES) as u32
}
