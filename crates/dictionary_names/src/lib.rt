// The terms of texts: one text against the last segment of a dictionary, in which it is entered if it is new.
#![tactic(auto)]

ghost use Rattle.std.specs.Prelude.{◌≡◌, List, ℕ, ◌+◌, ◌≤◌, ◌<◌, leb};
ghost use Rattle.spec_ntriples.specs.Texts.{Text};
ghost use Rattle.spec_ntriples.specs.Dictionary.{Entry};
ghost use Rattle.ntriples_bytes.specs.inside.Places.{HasText};
ghost use Rattle.dictionary_hash.specs.inside.Hashes.{home_of};
ghost use Rattle.dictionary_index.specs.inside.Index.{FreeAt};
ghost use Rattle.dictionary_names.specs.inside.Naming.{LastSegment, CanName, CanAdd, NamedIn};

use dictionary_bytes::{Filled, HEADER, term_at};
use dictionary_entries::write_entry;
use dictionary_index::{FARTHEST, MOST_ENTRIES, Search};
use dictionary_numbers::{NUMBERS, filled_on, number_of};
use dictionary_search::search_index;
use ntriples_text::text_length;
use ntriples_text_kind::kind_of;

// What naming a text gives: the term of an entry that has it; a new term, and how far the dictionary is filled then; that a new segment has to
// begin; or that there is no space for the text.
#[derive(Clone, Copy)]
pub enum Named {
    Known(u32),
    New(u32, Filled),
    Full,
    NoSpace,
}

// Whether an entry with a text of n bytes has room in a dictionary of len bytes that is filled up to an end.
fn has_room(len: usize, end: usize, n: usize) -> bool
    requires { end ≤ len }
    ensures { result ≡ leb (end + 12 + n) len }
{
    if len - end < HEADER {
        return false;
    }
    n <= len - end - HEADER
}

// Gives a text in a line, which no entry of the last segment has, the next term of its kind, and enters it: behind the last entry, and in an
// empty slot of the index.
fn name_new(
    slots: &mut [u32],
    dictionary: &mut [u8],
    first: usize,
    slot: usize,
    line: &[u8],
    from: usize,
    to: usize,
    f: Filled,
) -> Named
    requires { CanAdd slots.old dictionary.old first slot line.now from to f }
    ensures { (count : ℕ) (ds es : List Entry) (t : Text) → LastSegment slots.old dictionary.old first count f ds es → HasText line.now from to t → FreeAt slots.old dictionary.old first t.bytes (home_of t.bytes) slot → NamedIn slots.old slots.new dictionary.old dictionary.new first count ds es t result }
{
    let kind = kind_of(line, from, to);
    let number = number_of(f, kind);
    if number == NUMBERS {
        return Named::NoSpace;
    }
    if !has_room(dictionary.len(), f.end, text_length(line, from, to)) {
        return Named::NoSpace;
    }
    let term = kind * NUMBERS + number;
    let end = write_entry(dictionary, f.end, term, line, from, to);
    slots[slot] = (f.end - first + 1) as u32;
    Named::New(term, filled_on(f, kind, end))
}

// Gives the term of a text in a line by the last segment of a dictionary, which begins at first and has so many entries; a text that none of
// them has is entered.
pub fn name_text(
    slots: &mut [u32],
    dictionary: &mut [u8],
    first: usize,
    count: usize,
    line: &[u8],
    from: usize,
    to: usize,
    f: Filled,
) -> Named
    requires { CanName slots.old dictionary.old first count line.now from to f }
    ensures { (ds es : List Entry) (t : Text) → LastSegment slots.old dictionary.old first count f ds es → HasText line.now from to t → NamedIn slots.old slots.new dictionary.old dictionary.new first count ds es t result }
{
    match search_index(slots, dictionary, first, line, from, to) {
        Search::Found(at) => Named::Known(term_at(dictionary, at)),
        Search::Past => Named::Full,
        Search::Free(slot) => {
            if (count == MOST_ENTRIES) | (FARTHEST < f.end - first) {
                return Named::Full;
            }
            name_new(slots, dictionary, first, slot, line, from, to, f)
        }
    }
}
