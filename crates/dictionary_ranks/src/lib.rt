// Which terms have entries in a dictionary, and which slot is for the place of a term's entry. For each kind 16,384 places at most are kept, one
// for every so many entries.
#![tactic(auto)]

ghost use Rattle.std.specs.Prelude.{◌≡◌, true, List, ℕ, ◌≤◌, ◌<◌, ltb, length};
ghost use Rattle.spec.specs.Terms.{kind, number};
ghost use Rattle.spec_ntriples.specs.Dictionary.{entries, is_dictionary, first_number};
ghost use Rattle.spec_ntriples.specs.Sights.{text_in};
ghost use Rattle.dictionary_bytes.specs.inside.Entries.{FilledBy};
ghost use Rattle.dictionary_numbers.specs.inside.Numbers.{number_of};
ghost use Rattle.dictionary_ranks.specs.inside.Ranks.{rank_of, stride_of, slot_for, HasNumber};

use dictionary_bytes::Filled;
use dictionary_numbers::{NUMBERS, number_of};

// How many places are kept for each kind, and for all three.
pub const PLACES: usize = 16384;

pub const ALL_PLACES: usize = 49152;

// The kind behind the last that entries have.
const NO_KIND: u32 = 3;

// The first numbers of URIs, and of blanks and literals.
const FIRST_URI: u32 = 16;

const FIRST_OTHER: u32 = 1;

// Room for the places.
pub fn no_places() -> [usize; ALL_PLACES]
    ensures { length result ≡ 49152 }
{
    [0usize; ALL_PLACES]
}

// The first number of a kind.
fn first_number(kind: u32) -> u32
    ensures { result ≡ first_number kind }
{
    if kind == 0 {
        return FIRST_URI;
    }
    FIRST_OTHER
}

// Whether an entry has a term, by the numbers of its kind that are taken.
pub fn has_entry(f: Filled, term: u32) -> bool
    ensures { (bs : List ℕ) → is_dictionary bs ≡ true → FilledBy bs f (entries bs) → result ≡ ltb 0 (length (text_in (entries bs) term)) }
{
    let kind = term / NUMBERS;
    let number = term % NUMBERS;
    if kind == NO_KIND {
        return false;
    }
    if number < first_number(kind) {
        return false;
    }
    number < number_of(f, kind)
}

// The rank of a term: how many terms of its kind are before it.
pub fn rank_of(term: u32) -> usize
    requires { first_number (kind term) ≤ number term }
    ensures { result ≡ rank_of term }
{
    (term % NUMBERS - first_number(term / NUMBERS)) as usize
}

// For how many entries of a kind that has some one place is kept: the fewest for which the places suffice.
pub fn stride_of(f: Filled, kind: u32) -> usize
    requires { first_number kind < number_of f kind }
    ensures { result ≡ stride_of f kind }
{
    (number_of(f, kind) - first_number(kind) - 1) as usize / PLACES + 1
}

// The slot for a term: it has the place of the last entry of its kind with one that is not behind the term's.
pub fn slot_for(f: Filled, term: u32) -> usize
    requires { HasNumber f term }
    ensures { (result ≡ slot_for f term) × (result < 49152) }
{
    let kind = term / NUMBERS;
    kind as usize * PLACES + rank_of(term) / stride_of(f, kind)
}
