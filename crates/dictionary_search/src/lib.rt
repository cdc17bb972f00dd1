// A text searched for in the index of one segment of a dictionary's entries, and the term of the entry that has it.
#![tactic(auto)]

ghost use Rattle.std.specs.Prelude.{◌≡◌, List};
ghost use Rattle.spec_ntriples.specs.Texts.{Text};
ghost use Rattle.spec_ntriples.specs.Dictionary.{Entry, term_in};
ghost use Rattle.ntriples_bytes.specs.inside.Places.{HasText};
ghost use Rattle.ntriples_text.specs.inside.Tokens.{IsToken};
ghost use Rattle.dictionary_hash.specs.inside.Hashes.{home_of};
ghost use Rattle.dictionary_index.specs.inside.Index.{LeadWithin, Searched};
ghost use Rattle.dictionary_search.specs.inside.IndexOf.{IndexOf};

use dictionary_bytes::term_at;
use dictionary_hash::slot_of;
use dictionary_index::{Search, find_token};
use ntriples_text::text_hash;

// Searches for a text in a line, from the slot of its hash on, in the index of a segment that begins at first.
pub fn search_index(
    slots: &[u32],
    dictionary: &[u8],
    first: usize,
    line: &[u8],
    from: usize,
    to: usize,
) -> Search
    requires lead_within { LeadWithin slots.now dictionary.now first }
    requires token { IsToken line.now from to }
    ensures { (t : Text) → HasText line.now from to t → Searched slots.now dictionary.now first t.bytes (home_of t.bytes) result }
{
    let home = slot_of(text_hash(line, from, to));
    find_token(slots, dictionary, first, line, from, to, home)
}

// The term of a text in a line among the entries of a segment; 0 where none has it, as term_in says: no term is 0.
pub fn find_term(
    slots: &[u32],
    dictionary: &[u8],
    first: usize,
    line: &[u8],
    from: usize,
    to: usize,
) -> u32
    requires lead_within { LeadWithin slots.now dictionary.now first }
    requires token { IsToken line.now from to }
    ensures { (es : List Entry) (t : Text) → IndexOf slots.now dictionary.now first es → HasText line.now from to t → result ≡ term_in es t.bytes }
{
    match search_index(slots, dictionary, first, line, from, to) {
        Search::Found(at) => term_at(dictionary, at),
        Search::Free(_) => 0,
        Search::Past => 0,
    }
}
