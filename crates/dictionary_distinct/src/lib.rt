// Whether the texts of a dictionary's entries differ: segment by segment, each against the entries behind it, without comparing all pairs.
#![tactic(auto)]

ghost use Rattle.std.specs.Prelude.{◌<◌};
ghost use Rattle.dictionary_index.specs.inside.Index.{AreEntries};
ghost use Rattle.dictionary_distinct.specs.inside.Distinct.{IsApart, AreDistinct};

use dictionary_index::index_segment;
use dictionary_repeats::are_repeated;
use dictionary_slots::no_slots;

// Indexes a segment of the entries between two indexes, and searches in it for the texts of the entries behind it: the index behind the segment,
// or nothing where a text repeats.
fn next_segment(dictionary: &[u8], first: usize, last: usize) -> Option<usize>
    requires are_entries { AreEntries dictionary.now first last }
    requires first_lt_last { first < last }
    ensures { IsApart dictionary.now first last result }
{
    let mut slots = no_slots();
    let end = index_segment(&mut slots, dictionary, first, last).end;
    if are_repeated(&slots, dictionary, first, end, last) {
        return None;
    }
    Some(end)
}

// Whether the texts of the entries up to an index differ.
pub fn are_distinct(dictionary: &[u8], last: usize) -> bool
    requires { AreEntries dictionary.now 0 last }
    ensures { AreDistinct dictionary.now last result }
{
    let mut first = 0;
    while first < last {
        let Some(end) = next_segment(dictionary, first, last) else {
            return false;
        };
        first = end;
    }
    true
}
