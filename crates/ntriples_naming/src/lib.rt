// The texts of a line get their terms in the last segment of a dictionary, in order: subject, property, object.
#![tactic(auto)]

ghost use Rattle.std.specs.Prelude.{◌≡◌, List, ◌+◌, ◌≤◌, ◌<◌, length, get_or, Ok};
ghost use Rattle.spec_ntriples.specs.Texts.{Text};
ghost use Rattle.spec_ntriples.specs.Dictionary.{Entry};
ghost use Rattle.ntriples_bytes.specs.inside.Places.{HasText};
ghost use Rattle.ntriples_naming.specs.inside.Progress.{no_text, Reached, CanNameWord, TextsIn, CanNameLine};

use dictionary_bytes::Filled;
use dictionary_names::{Named, name_text};
use ntriples_lines::{Token, Tokens};

// The last segment of a dictionary: how many entries it has, and how far the dictionary is filled.
#[derive(Clone, Copy)]
pub struct Last {
    pub count: usize,
    pub filled: Filled,
}

// Why naming stopped at a text, and the last segment before it: the segment is full, or the text has no space in the dictionary.
#[derive(Clone, Copy)]
pub enum Stopped {
    Full(Last),
    NoSpace(Last),
}

// Gives the text of a term in a line its word, where that is 0: its term in the last segment, in which it is entered if it is new.
fn name_word(
    slots: &mut [u32],
    dictionary: &mut [u8],
    first: usize,
    last: Last,
    line: &[u8],
    token: Token,
    terms: &mut [u32],
    j: usize,
) -> Result<Last, Stopped>
    requires { CanNameWord slots.old dictionary.old first last line.now token terms.old j }
    ensures { (ds es : List Entry) (xs : List Text) → j < length xs → HasText line.now token.from token.end (get_or xs j no_text) → Reached ds es xs j slots.old dictionary.old first terms.old (Ok last) → Reached ds es xs (j + 1) slots.new dictionary.new first terms.new result }
{
    if 0 < terms[j] {
        return Ok(last);
    }
    let filled = last.filled;
    match name_text(
        slots, dictionary, first, last.count, line, token.from, token.end, filled,
    ) {
        Named::Known(w) => {
            terms[j] = w;
            Ok(last)
        }
        Named::New(w, f) => {
            terms[j] = w;
            Ok(Last {
                count: last.count + 1,
                filled: f,
            })
        }
        Named::Full => Err(Stopped::Full(last)),
        Named::NoSpace => Err(Stopped::NoSpace(last)),
    }
}

// The same for the three texts of a line, whose words begin at an index, where naming goes on; where it has stopped, nothing is named.
pub fn name_line(
    slots: &mut [u32],
    dictionary: &mut [u8],
    first: usize,
    so_far: Result<Last, Stopped>,
    line: &[u8],
    k: Tokens,
    terms: &mut [u32],
    j: usize,
) -> Result<Last, Stopped>
    requires { CanNameLine slots.old dictionary.old first so_far line.now k terms.old j }
    ensures { (ds es : List Entry) (xs : List Text) → j + 3 ≤ length xs → TextsIn line.now k xs j → Reached ds es xs j slots.old dictionary.old first terms.old so_far → Reached ds es xs (j + 3) slots.new dictionary.new first terms.new result }
{
    let last = so_far?;
    let subject = k.subject;
    let property = k.property;
    let object = k.object;
    let a = name_word(slots, dictionary, first, last, line, subject, terms, j)?;
    let b = name_word(slots, dictionary, first, a, line, property, terms, j + 1)?;
    name_word(slots, dictionary, first, b, line, object, terms, j + 2)
}
