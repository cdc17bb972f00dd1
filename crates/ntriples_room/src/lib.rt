// The texts and ends of lines, put into an output where they fit.
#![tactic(auto)]

ghost use Rattle.std.specs.Prelude.{◌++◌, ◌+◌, ◌≤◌, length};
ghost use Rattle.spec_ntriples.specs.Characters.{codes};
ghost use Rattle.dictionary_bytes.specs.inside.Entries.{length_at, text_at};
ghost use Rattle.ntriples_copy.specs.inside.Vocabulary.{vocabulary_text};
ghost use Rattle.ntriples_room.specs.inside.Put.{Put};

use dictionary_bytes::{HEADER, length_at};
use ntriples_copy::{copy_bytes, vocabulary_length, write_vocabulary};

// The characters of a line besides its texts.
const SPACE: u8 = 32;

const DOT: u8 = 46;

const LINE_FEED: u8 = 10;

// The bytes that end a line behind its last space: a dot and byte 10.
const END_BYTES: usize = 2;

// Puts the text of the entry at a place and a space from an index on: the index behind them, or 0 where they do not fit.
pub fn put_entry(dictionary: &[u8], place: usize, out: &mut [u8], at: usize) -> usize
    requires place_in_bounds { place + 12 + length_at dictionary.now place ≤ length dictionary.now }
    requires at_in_bounds { at ≤ length out.old }
    ensures { Put out.old out.new at (text_at dictionary.now place ++ codes " ") result }
{
    let n = length_at(dictionary, place);
    if out.len() - at <= n {
        return 0;
    }
    copy_bytes(dictionary, place + HEADER, n, out, at);
    out[at + n] = SPACE;
    at + n + 1
}

// Puts the text of a vocabulary URI and a space from an index on: the index behind them, or 0 where they do not fit.
pub fn put_vocabulary(term: u32, out: &mut [u8], at: usize) -> usize
    requires le_term { (1 ≤ term) × (term ≤ 5) }
    requires at_in_bounds { at ≤ length out.old }
    ensures { Put out.old out.new at (vocabulary_text term ++ codes " ") result }
{
    let size = vocabulary_length(term);
    if out.len() - at <= size {
        return 0;
    }
    write_vocabulary(term, out, at);
    out[at + size] = SPACE;
    at + size + 1
}

// Puts a dot and byte 10 from an index on, which end a line: the index behind them, or 0 where they do not fit.
pub fn put_end(out: &mut [u8], at: usize) -> usize
    requires { at ≤ length out.old }
    ensures { Put out.old out.new at (codes ".\n") result }
{
    if out.len() - at < END_BYTES {
        return 0;
    }
    out[at] = DOT;
    out[at + 1] = LINE_FEED;
    at + END_BYTES
}
