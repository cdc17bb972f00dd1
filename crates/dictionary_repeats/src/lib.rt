// Whether the texts of entries stand in an indexed segment before them.
#![tactic(auto)]

ghost use Rattle.std.specs.Prelude.{ℕ, ◌+◌, ◌≤◌, length};
ghost use Rattle.dictionary_bytes.specs.inside.Entries.{length_at};
ghost use Rattle.dictionary_index.specs.inside.Index.{LeadWithin, Index, AreEntries};
ghost use Rattle.dictionary_repeats.specs.inside.Repeated.{IsRepeated, AreRepeated};

use dictionary_bytes::{HEADER, length_at};
use dictionary_hash::{hash_from, slot_of};
use dictionary_index::{Search, find_text};

// Whether an entry of an indexed segment that begins at first has the text of the entry at an index.
fn is_repeated(slots: &[u32], dictionary: &[u8], first: usize, at: usize) -> bool
    requires lead_within { LeadWithin slots.now dictionary.now first }
    requires at_in_bounds { at + 12 + length_at dictionary.now at ≤ length dictionary.now }
    ensures { (k : ℕ) → Index slots.now dictionary.now first k → IsRepeated dictionary.now first k at result }
{
    let n = length_at(dictionary, at);
    let from = at + HEADER;
    let home = slot_of(hash_from(0, dictionary, from, n));
    match find_text(slots, dictionary, first, dictionary, from, n, home) {
        Search::Found(_) => true,
        Search::Free(_) => false,
        Search::Past => false,
    }
}

// Whether an entry of an indexed segment that begins at first has the text of one of the entries between two indexes.
pub fn are_repeated(
    slots: &[u32],
    dictionary: &[u8],
    first: usize,
    from: usize,
    last: usize,
) -> bool
    requires lead_within { LeadWithin slots.now dictionary.now first }
    requires are_entries { AreEntries dictionary.now from last }
    ensures { (k : ℕ) → Index slots.now dictionary.now first k → AreRepeated dictionary.now first k from last result }
{
    let mut at = from;
    while at < last {
        if is_repeated(slots, dictionary, first, at) {
            return true;
        }
        at = at + HEADER + length_at(dictionary, at);
    }
    false
}
