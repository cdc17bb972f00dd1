// A batch of lines against the last segment of a dictionary: the terms of its texts, and an entry for each that has none.
#![tactic(auto)]

ghost use Rattle.std.specs.Prelude.{List};
ghost use Rattle.spec_ntriples.specs.Texts.{TextTriple};
ghost use Rattle.spec_ntriples.specs.Dictionary.{Entry};
ghost use Rattle.dictionary_names.specs.inside.Naming.{LastSegment};
ghost use Rattle.ntriples_last.specs.inside.Segments.{IsBatch, Looked, CanNameLast, IsSegmentStep};

use dictionary_bytes::Filled;
use ntriples_names::name_terms;
use ntriples_naming::{Last, Stopped};
use ntriples_terms::find_terms;

// What naming a batch in a segment gives: all texts have terms; or one has no space; or the next segment begins at an index.
#[derive(Clone, Copy)]
pub enum Step {
    Done(Filled),
    Lacks(Filled),
    Next(usize, Filled),
}

// Names the texts of a batch in the last segment of a dictionary, as far as it is not full.
pub fn name_last(
    slots: &mut [u32],
    dictionary: &mut [u8],
    first: usize,
    last: Last,
    file: &[u8],
    lines: &[usize],
    n: usize,
    terms: &mut [u32],
) -> Step
    requires { CanNameLast slots.old dictionary.old first last file.now lines.now n terms.old }
    ensures { (es : List Entry) (ts : List TextTriple) → IsBatch file.now lines.now n ts → (L : Looked es ts dictionary.old first last.filled terms.old) → LastSegment slots.old dictionary.old first last.count last.filled L.before L.behind → IsSegmentStep es ts dictionary.new first terms.new result }
{
    match name_terms(slots, dictionary, first, last, file, lines, n, terms) {
        Ok(l) => {
            let f = l.filled;
            Step::Done(f)
        }
        Err(Stopped::NoSpace(l)) => {
            let f = l.filled;
            Step::Lacks(f)
        }
        Err(Stopped::Full(l)) => {
            find_terms(slots, dictionary, first, file, lines, n, terms);
            let f = l.filled;
            Step::Next(f.end, f)
        }
    }
}
