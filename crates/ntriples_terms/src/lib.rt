// The terms of the lines of a batch: those of the vocabulary, and those found in a segment of a dictionary.
#![tactic(auto)]

ghost use Rattle.std.specs.Prelude.{◌≡◌, List};
ghost use Rattle.spec_ntriples.specs.Texts.{Text, TextTriple};
ghost use Rattle.spec_ntriples.specs.Dictionary.{Entry, vocabulary_of};
ghost use Rattle.ntriples_bytes.specs.inside.Places.{HasText};
ghost use Rattle.ntriples_text.specs.inside.Tokens.{IsToken};
ghost use Rattle.ntriples_batch.specs.inside.Batches.{LineAt, HaveTexts};
ghost use Rattle.dictionary_index.specs.inside.Index.{LeadWithin};
ghost use Rattle.dictionary_search.specs.inside.IndexOf.{IndexOf};
ghost use Rattle.ntriples_terms.specs.inside.Words.{triple_by, found_word, found_row, IsTripleAt, AreTokens, LinesAt, CanBeNamed, RowsBy};

use dictionary_search::find_term;
use ntriples_batch::tokens_at;
use ntriples_breaks::line_end;
use ntriples_lines::{Token, Tokens};
use ntriples_text_kind::vocabulary_of;
use ntriples_words::{is_named, put_row};
use spec::Triple;
use table::row_from;

// The vocabulary's terms for the texts of a line, 0 for each that is none.
fn vocabulary_in(line: &[u8], k: Tokens) -> Triple
    requires { AreTokens line.now k }
    ensures { (t : TextTriple) → HaveTexts line.now k t → result ≡ triple_by vocabulary_of t }
{
    Triple {
        subject: vocabulary_of(line, k.subject.from, k.subject.end),
        property: vocabulary_of(line, k.property.from, k.property.end),
        object: vocabulary_of(line, k.object.from, k.object.end),
    }
}

// The same for the line that begins at an index.
fn vocabulary_at(file: &[u8], begin: usize) -> Triple
    requires { IsTripleAt file.now begin }
    ensures { (t : TextTriple) → LineAt file.now begin t → result ≡ triple_by vocabulary_of t }
{
    let end = line_end(file, begin);
    let k = tokens_at(file, begin, end);
    vocabulary_in(&file[begin..end], k)
}

// Writes the vocabulary's terms for the first n lines of a batch, 0 for each text that is none.
pub fn name_vocabulary(file: &[u8], lines: &[usize], n: usize, terms: &mut [u32])
    requires { CanBeNamed file.now lines.now n terms.old }
    ensures { (ts : List TextTriple) → LinesAt file.now lines.now n ts → RowsBy (λ t r. triple_by vocabulary_of t) ts n terms.old terms.new }
{
    for i in 0..n {
        let row = vocabulary_at(file, lines[i]);
        put_row(terms, i, row);
    }
}

// A text's word: as it is, or where it is 0, the text's term among the entries of a segment.
fn find_word(
    slots: &[u32],
    dictionary: &[u8],
    first: usize,
    line: &[u8],
    at: Token,
    word: u32,
) -> u32
    requires lead_within { LeadWithin slots.now dictionary.now first }
    requires token { IsToken line.now at.from at.end }
    ensures { (es : List Entry) (t : Text) → IndexOf slots.now dictionary.now first es → HasText line.now at.from at.end t → result ≡ found_word es t.bytes word }
{
    if 0 < word {
        return word;
    }
    find_term(slots, dictionary, first, line, at.from, at.end)
}

// The same for the three words of a line.
fn find_in(
    slots: &[u32],
    dictionary: &[u8],
    first: usize,
    line: &[u8],
    k: Tokens,
    row: Triple,
) -> Triple
    requires lead_within { LeadWithin slots.now dictionary.now first }
    requires are_tokens { AreTokens line.now k }
    ensures { (es : List Entry) (t : TextTriple) → IndexOf slots.now dictionary.now first es → HaveTexts line.now k t → result ≡ found_row es t row }
{
    let subject = k.subject;
    let property = k.property;
    let object = k.object;
    Triple {
        subject: find_word(slots, dictionary, first, line, subject, row.subject),
        property: find_word(slots, dictionary, first, line, property, row.property),
        object: find_word(slots, dictionary, first, line, object, row.object),
    }
}

// The same for the line that begins at an index.
fn find_at(
    slots: &[u32],
    dictionary: &[u8],
    first: usize,
    file: &[u8],
    begin: usize,
    row: Triple,
) -> Triple
    requires lead_within { LeadWithin slots.now dictionary.now first }
    requires triple_at { IsTripleAt file.now begin }
    ensures { (es : List Entry) (t : TextTriple) → IndexOf slots.now dictionary.now first es → LineAt file.now begin t → result ≡ found_row es t row }
{
    if is_named(row) {
        return row;
    }
    let end = line_end(file, begin);
    let k = tokens_at(file, begin, end);
    find_in(slots, dictionary, first, &file[begin..end], k, row)
}

// Looks for the texts of the first n lines of a batch in a segment of a dictionary: each word that is 0 becomes the text's term there, if it has one.
pub fn find_terms(
    slots: &[u32],
    dictionary: &[u8],
    first: usize,
    file: &[u8],
    lines: &[usize],
    n: usize,
    terms: &mut [u32],
)
    requires lead_within { LeadWithin slots.now dictionary.now first }
    requires can_be_named { CanBeNamed file.now lines.now n terms.old }
    ensures { (es : List Entry) (ts : List TextTriple) → IndexOf slots.now dictionary.now first es → LinesAt file.now lines.now n ts → RowsBy (found_row es) ts n terms.old terms.new }
{
    for i in 0..n {
        let row = find_at(slots, dictionary, first, file, lines[i], row_from(terms, i));
        put_row(terms, i, row);
    }
}
