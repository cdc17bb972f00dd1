// The texts of a dictionary's entries: whether a text is canonical, its kind, and whether it is one of the vocabulary.
#![tactic(auto)]

ghost use Rattle.std.specs.Prelude.{◌≡◌, true, ◌&&◌, eqb};
ghost use Rattle.spec_ntriples.specs.Dictionary.{vocabulary_of, kind_of};
ghost use Rattle.spec_ntriples.specs.computed.Canonical.{is_canonical};

use ntriples_bytes::is_utf8;
use ntriples_ends::object_end;
use ntriples_text_kind::{kind_of, vocabulary_of};
use ntriples_text_same::is_text;

// The lengths of the shortest and of the longest text of the vocabulary.
const SHORTEST: usize = 44;

const LONGEST: usize = 52;

// Whether a text is canonical: read as a term, it is whole and gives itself.
pub fn is_canonical(text: &[u8]) -> bool
    ensures { result ≡ is_canonical text.now }
{
    if !is_utf8(text) {
        return false;
    }
    match object_end(text, 0) {
        None => false,
        Some(end) => {
            if end < text.len() {
                return false;
            }
            is_text(text, 0, end, text, 0, text.len())
        }
    }
}

// Whether a canonical text is none of the vocabulary. Most are by their length alone.
fn is_no_vocabulary(text: &[u8]) -> bool
    requires { is_canonical text.now ≡ true }
    ensures { result ≡ eqb (vocabulary_of text.now) 0 }
{
    if (text.len() < SHORTEST) | (LONGEST < text.len()) {
        return true;
    }
    vocabulary_of(text, 0, text.len()) == 0
}

// Whether a text is canonical and none of the vocabulary: one that an entry may have.
pub fn is_own_text(text: &[u8]) -> bool
    ensures { result ≡ (is_canonical text.now && eqb (vocabulary_of text.now) 0) }
{
    is_canonical(text) && is_no_vocabulary(text)
}

// The kind of a canonical text: 0 URI, 1 blank, 2 literal.
pub fn text_kind(text: &[u8]) -> u32
    requires { is_canonical text.now ≡ true }
    ensures { result ≡ kind_of text.now }
{
    kind_of(text, 0, text.len())
}
