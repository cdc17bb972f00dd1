// The index of a segment of a dictionary's entries: words that lead from a text to its entry, by open addressing without wrapping around.
#![tactic(auto)]

ghost use Rattle.std.specs.Prelude.{◌≡◌, ℕ, ◌+◌, ◌≤◌, length, take, drop};
ghost use Rattle.spec_ntriples.specs.Texts.{Text, is_same_text};
ghost use Rattle.ntriples_bytes.specs.inside.Places.{HasText};
ghost use Rattle.ntriples_text.specs.inside.Tokens.{IsToken};
ghost use Rattle.dictionary_bytes.specs.inside.Entries.{length_at, text_at, place_at};
ghost use Rattle.dictionary_index.specs.inside.Index.{LeadWithin, Searched, Index, IndexTo, EnteredAt, AreZero, AreEntries, IsSegment};

use dictionary_bytes::{HEADER, has_text, length_at};
use dictionary_hash::{hash_from, slot_of};
use ntriples_text_same::is_text;

// Where a search ends: at the entry that has the text, at an empty slot, or past the last slot.
#[derive(Clone, Copy)]
pub enum Search {
    Found(usize),
    Free(usize),
    Past,
}

// What entering an entry does: its text is new; an entry at a byte index has it already; or no slot is left for it.
#[derive(Clone, Copy)]
pub enum Entered {
    New,
    Known(usize),
    Full,
}

// A segment of a dictionary's entries: how many there are, the index behind the last, and whether the entry there repeats a text.
#[derive(Clone, Copy)]
pub struct Segment {
    pub count: usize,
    pub end: usize,
    pub repeats: bool,
}

// The slots of an index, and the most entries that it leads to.
pub const SLOTS: usize = 65536;

pub const MOST_ENTRIES: usize = 49152;

// How far from its segment's first byte an entry may begin: one more fits the word of a slot.
pub const FARTHEST: usize = 4294967294;

// Searches for the n bytes from an index on as the text of an entry, from a slot on, in the index of a segment that begins at first.
pub fn find_text(
    slots: &[u32],
    dictionary: &[u8],
    first: usize,
    bytes: &[u8],
    from: usize,
    n: usize,
    home: usize,
) -> Search
    requires lead_within { LeadWithin slots.now dictionary.now first }
    requires n_in_bounds { from + n ≤ length bytes.now }
    ensures { Searched slots.now dictionary.now first (take n (drop from bytes.now)) home result }
{
    for s in home..slots.len() {
        let w = slots[s] as usize;
        if w == 0 {
            return Search::Free(s);
        }
        let at = first + (w - 1);
        if has_text(dictionary, at, bytes, from, n) {
            return Search::Found(at);
        }
    }
    Search::Past
}

// Enters the entry at a byte index into the index of the entries of a segment before it.
pub fn enter(slots: &mut [u32], dictionary: &[u8], first: usize, at: usize) -> Entered
    requires { IndexTo slots.old dictionary.now first at }
    ensures same_length { length slots.new ≡ length slots.old }
    ensures entered { (k : ℕ) → Index slots.old dictionary.now first k → at ≡ place_at dictionary.now first k → EnteredAt slots.old slots.new dictionary.now first k at result }
{
    let n = length_at(dictionary, at);
    let from = at + HEADER;
    let home = slot_of(hash_from(0, dictionary, from, n));
    match find_text(slots, dictionary, first, dictionary, from, n, home) {
        Search::Found(other) => Entered::Known(other),
        Search::Past => Entered::Full,
        Search::Free(s) => {
            slots[s] = (at - first + 1) as u32;
            Entered::New
        }
    }
}

// Whether the entry at an index has the text of a term in a line.
fn has_token(dictionary: &[u8], at: usize, line: &[u8], from: usize, end: usize) -> bool
    requires at_in_bounds { at + 12 + length_at dictionary.now at ≤ length dictionary.now }
    requires token { IsToken line.now from end }
    ensures { (t : Text) → HasText line.now from end t → result ≡ is_same_text t.bytes (text_at dictionary.now at) }
{
    let n = length_at(dictionary, at);
    is_text(line, from, end, dictionary, at + HEADER, n)
}

// Searches for the text of a term in a line, from a slot on, in the index of a segment that begins at first. It stands beside find_text: what is
// compared differs, and one function of a closure would promise what two clauses say plainly here.
pub fn find_token(
    slots: &[u32],
    dictionary: &[u8],
    first: usize,
    line: &[u8],
    from: usize,
    end: usize,
    home: usize,
) -> Search
    requires lead_within { LeadWithin slots.now dictionary.now first }
    requires token { IsToken line.now from end }
    ensures { (t : Text) → HasText line.now from end t → Searched slots.now dictionary.now first t.bytes home result }
{
    for s in home..slots.len() {
        let w = slots[s] as usize;
        if w == 0 {
            return Search::Free(s);
        }
        let at = first + (w - 1);
        if has_token(dictionary, at, line, from, end) {
            return Search::Found(at);
        }
    }
    Search::Past
}

// Makes the index of a segment of the entries between two indexes: as many of them as it can lead to, up to one that repeats a text.
pub fn index_segment(slots: &mut [u32], dictionary: &[u8], first: usize, last: usize) -> Segment
    requires are_zero { AreZero slots.old }
    requires in_bounds { 65536 ≤ length slots.old }
    requires are_entries { AreEntries dictionary.now first last }
    ensures { IsSegment slots.new dictionary.now first last result }
{
    let mut at = first;
    let mut count = 0;
    while at < last {
        if (count == MOST_ENTRIES) | (FARTHEST < at - first) {
            break;
        }
        match enter(slots, dictionary, first, at) {
            Entered::New => {
                at = at + HEADER + length_at(dictionary, at);
                count += 1;
            }
            Entered::Known(_) => {
                return Segment {
                    count,
                    end: at,
                    repeats: true,
                };
            }
            Entered::Full => {
                break;
            }
        }
    }
    Segment {
        count,
        end: at,
        repeats: false,
    }
}
