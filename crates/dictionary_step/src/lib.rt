// Question 1 for a dictionary, one entry at a time: whether the entry that comes behind those that are right is right too.
#![tactic(auto)]

ghost use Rattle.std.specs.Prelude.{◌≤◌, length};
ghost use Rattle.dictionary_step.specs.inside.Filling.{Filling, Comes, IsEntry, IsStep};

use dictionary_bytes::{Filled, HEADER, length_at, term_at};
use dictionary_numbers::{NUMBERS, filled_on, number_of};
use dictionary_texts::{is_own_text, text_kind};

// Whether an entry comes at an index: room for its header, and a term that is not 0.
pub fn is_entry(dictionary: &[u8], at: usize) -> bool
    requires { at ≤ length dictionary.now }
    ensures { IsEntry dictionary.now at result }
{
    if dictionary.len() - at < HEADER {
        return false;
    }
    term_at(dictionary, at) != 0
}

// Asks the entry that comes behind those that are right: it lies within the bytes, its text is canonical and none of the vocabulary, and its
// term is the next of its kind. How far the dictionary is filled with it, or nothing where the bytes are no dictionary.
pub fn next_entry(dictionary: &[u8], f: Filled) -> Option<Filled>
    requires filling { Filling dictionary.now f }
    requires comes { Comes dictionary.now f.end }
    ensures { IsStep dictionary.now f result }
{
    let at = f.end;
    let from = at + HEADER;
    let n = length_at(dictionary, at);
    if dictionary.len() - from < n {
        return None;
    }
    let end = from + n;
    if !is_own_text(&dictionary[from..end]) {
        return None;
    }
    let kind = text_kind(&dictionary[from..end]);
    let number = number_of(f, kind);
    if number == NUMBERS {
        return None;
    }
    if term_at(dictionary, at) != kind * NUMBERS + number {
        return None;
    }
    Some(filled_on(f, kind, end))
}
