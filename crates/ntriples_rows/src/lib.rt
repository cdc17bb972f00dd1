// Rows written as lines of N-Triples: the texts of their terms, copied from a dictionary. Each text is looked up once, so that whether the lines fit
// is seen only as they are written.
#![tactic(auto)]

ghost use Rattle.std.specs.Prelude.{◌≡◌, true, ◌++◌, ◌≤◌, length};
ghost use Rattle.spec.specs.Lists.{all};
ghost use Rattle.spec.specs.Tables.{rows};
ghost use Rattle.spec.specs.inside.Laid.{Laid};
ghost use Rattle.spec_ntriples.specs.Characters.{codes};
ghost use Rattle.spec_ntriples.specs.Dictionary.{entries};
ghost use Rattle.spec_ntriples.specs.Sights.{text_of};
ghost use Rattle.spec_writing.specs.Writing.{line_bytes, row_texts, rows_bytes, has_text, has_texts, written};
ghost use Rattle.dictionary_places.specs.inside.Places.{ArePlaces};
ghost use Rattle.ntriples_room.specs.inside.Put.{Put};
ghost use Rattle.ntriples_rows.specs.inside.Fitting.{given_room};

use dictionary_bytes::Filled;
use dictionary_places::place_of;
use ntriples_copy::clear_from;
use ntriples_room::{put_end, put_entry, put_vocabulary};
use spec::{Reply, Triple};
use table::row_at;
use terms::Term;

// Puts a term's text and a space from an index on: the index behind them, or 0 where they do not fit.
fn put_term(
    dictionary: &[u8],
    f: Filled,
    places: &[usize],
    term: u32,
    out: &mut [u8],
    at: usize,
) -> usize
    requires are_places { ArePlaces dictionary.now f places.now }
    requires term_value { has_text (entries dictionary.now) term ≡ true }
    requires at_in_bounds { at ≤ length out.old }
    ensures { Put out.old out.new at (text_of (entries dictionary.now) term ++ codes " ") result }
{
    let t = Term { word: term };
    if t.is_vocabulary() {
        return put_vocabulary(term, out, at);
    }
    put_entry(dictionary, place_of(dictionary, f, places, term), out, at)
}

// Puts the line of a row from an index on: the index behind it, or 0 where it does not fit.
fn put_row(
    t: Triple,
    dictionary: &[u8],
    f: Filled,
    places: &[usize],
    out: &mut [u8],
    at: usize,
) -> usize
    requires are_places { ArePlaces dictionary.now f places.now }
    requires t_value { has_texts (entries dictionary.now) t ≡ true }
    requires at_in_bounds { at ≤ length out.old }
    ensures { Put out.old out.new at (line_bytes (row_texts (entries dictionary.now) t)) result }
{
    let property = put_term(dictionary, f, places, t.subject, out, at);
    if property == 0 {
        return 0;
    }
    let object = put_term(dictionary, f, places, t.property, out, property);
    if object == 0 {
        return 0;
    }
    let end = put_term(dictionary, f, places, t.object, out, object);
    if end == 0 {
        return 0;
    }
    put_end(out, end)
}

// Question 8, and the lines of a table's rows: they are written from the first byte on, as long as they fit, and zeros behind them. Where one does not
// fit all becomes zero.
pub fn write_rows(
    table: &[u32],
    dictionary: &[u8],
    f: Filled,
    places: &[usize],
    out: &mut [u8],
) -> Reply
    requires laid { Laid table.now }
    requires are_places { ArePlaces dictionary.now f places.now }
    requires table_value { all (has_texts (entries dictionary.now)) (rows table.now) ≡ true }
    ensures { written result out.new ≡ given_room (rows_bytes (entries dictionary.now) (rows table.now)) (length out.old) }
{
    let n = table[0] as usize;
    let mut at = 0;
    for i in 0..n {
        let end = put_row(row_at(table, i), dictionary, f, places, out, at);
        if end == 0 {
            clear_from(out, 0);
            return Err(8);
        }
        at = end;
    }
    clear_from(out, at);
    Ok(at)
}
