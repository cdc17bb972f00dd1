// The texts of the lines of a batch get their terms in the last segment of a dictionary, in the order of the lines.
#![tactic(auto)]

ghost use Rattle.std.specs.Prelude.{◌≡◌, List, ◌+◌, ◌*◌, ◌<◌, length, get_or, Ok};
ghost use Rattle.spec_ntriples.specs.Texts.{TextTriple};
ghost use Rattle.spec_ntriples.specs.Dictionary.{Entry};
ghost use Rattle.ntriples_batch.specs.inside.Batches.{LineAt, no_triple};
ghost use Rattle.ntriples_naming.specs.inside.Progress.{lines_texts, Reached, CanNameAt, Begins, CanNameLines};

use ntriples_batch::tokens_at;
use ntriples_breaks::line_end;
use ntriples_naming::{Last, Stopped, name_line};
use ntriples_words::is_named;
use table::row_from;

// The same as name_line for the line that begins at a byte index, and row i.
fn name_at(
    slots: &mut [u32],
    dictionary: &mut [u8],
    first: usize,
    last: Last,
    file: &[u8],
    begin: usize,
    terms: &mut [u32],
    i: usize,
) -> Result<Last, Stopped>
    requires { CanNameAt slots.old dictionary.old first last file.now begin terms.old i }
    ensures { (ds es : List Entry) (ts : List TextTriple) → i < length ts → LineAt file.now begin (get_or ts i no_triple) → Reached ds es (lines_texts ts) (i * 3) slots.old dictionary.old first terms.old (Ok last) → Reached ds es (lines_texts ts) (i * 3 + 3) slots.new dictionary.new first terms.new result }
{
    if is_named(row_from(terms, i)) {
        return Ok(last);
    }
    let end = line_end(file, begin);
    let k = tokens_at(file, begin, end);
    name_line(
        slots,
        dictionary,
        first,
        Ok(last),
        &file[begin..end],
        k,
        terms,
        i * 3,
    )
}

// Gives the texts of the first n lines of a batch whose words are 0 their terms in the last segment of a dictionary, in order, until the segment
// is full or a text has no space.
pub fn name_terms(
    slots: &mut [u32],
    dictionary: &mut [u8],
    first: usize,
    last: Last,
    file: &[u8],
    lines: &[usize],
    n: usize,
    terms: &mut [u32],
) -> Result<Last, Stopped>
    requires { CanNameLines slots.old dictionary.old first last file.now lines.now n terms.old }
    ensures { (ds es : List Entry) (ts : List TextTriple) → Begins ds es ts slots.old dictionary.old first last file.now lines.now n terms.old → Reached ds es (lines_texts ts) (n * 3) slots.new dictionary.new first terms.new result }
{
    let mut l = last;
    for i in 0..n {
        l = name_at(slots, dictionary, first, l, file, lines[i], terms, i)?;
    }
    Ok(l)
}
