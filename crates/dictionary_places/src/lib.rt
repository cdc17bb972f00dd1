// The entries of a dictionary by their terms. For each kind the byte indexes of 16,384 entries at most are kept, one for every so many, and the
// entry of a term is found by a walk from the last kept one of its kind that is not behind it.
#![tactic(auto)]

ghost use Rattle.std.specs.Prelude.{◌≡◌, true, ◌+◌, ◌≤◌, ◌<◌, length};
ghost use Rattle.spec_ntriples.specs.Dictionary.{entries, is_dictionary};
ghost use Rattle.spec_ntriples.specs.Sights.{text_in};
ghost use Rattle.dictionary_bytes.specs.inside.Entries.{length_at, text_at, FilledBy};
ghost use Rattle.dictionary_ranks.specs.inside.Ranks.{HasNumber};
ghost use Rattle.dictionary_places.specs.inside.Places.{with_place, ArePlaces};

use dictionary_bytes::{Filled, HEADER, length_at, term_at};
use dictionary_numbers::NUMBERS;
use dictionary_ranks::{rank_of, slot_for, stride_of};

// Keeps the byte index of the entry of a term, where a place is kept for it.
fn keep_place(f: Filled, places: &mut [usize], term: u32, at: usize)
    requires has_number { HasNumber f term }
    requires places_len { length places.old ≡ 49152 }
    ensures { places.new ≡ with_place f places.old term at }
{
    if rank_of(term) % stride_of(f, term / NUMBERS) == 0 {
        let s = slot_for(f, term);
        places[s] = at;
    }
}

// Keeps the places of a dictionary's entries: walks them once.
pub fn index_places(dictionary: &[u8], f: Filled, places: &mut [usize])
    requires dictionary_value { is_dictionary dictionary.now ≡ true }
    requires filled_by { FilledBy dictionary.now f (entries dictionary.now) }
    requires places_len { length places.old ≡ 49152 }
    ensures { ArePlaces dictionary.now f places.new }
{
    let mut at = 0;
    while at < f.end {
        let next = at + HEADER + length_at(dictionary, at);
        keep_place(f, places, term_at(dictionary, at), at);
        at = next;
    }
}

// The byte index of the entry of a term that has one: a walk from the place in the slot for the term, until an entry has it.
pub fn place_of(dictionary: &[u8], f: Filled, places: &[usize], term: u32) -> usize
    requires are_places { ArePlaces dictionary.now f places.now }
    requires nonzero { 0 < length (text_in (entries dictionary.now) term) }
    ensures { (result + 12 + length_at dictionary.now result ≤ length dictionary.now) × (text_at dictionary.now result ≡ text_in (entries dictionary.now) term) }
{
    let s = slot_for(f, term);
    let mut at = places[s];
    while term_at(dictionary, at) != term {
        at = at + HEADER + length_at(dictionary, at);
    }
    at
}
