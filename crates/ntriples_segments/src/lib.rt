// A batch of lines against a whole dictionary, segment by segment: the terms of its texts, and an entry for each that has none.
#![tactic(auto)]

ghost use Rattle.std.specs.Prelude.{List};
ghost use Rattle.spec_ntriples.specs.Texts.{TextTriple};
ghost use Rattle.spec_ntriples.specs.Dictionary.{Entry};
ghost use Rattle.dictionary_bytes.specs.inside.Entries.{FilledBy};
ghost use Rattle.ntriples_last.specs.inside.Segments.{IsBatch};
ghost use Rattle.ntriples_segments.specs.inside.Batches.{IsBatched, CanNameBatch};

use dictionary_bytes::Filled;
use ntriples_last::Step;
use ntriples_segment::name_segment;
use ntriples_terms::name_vocabulary;

// A text has no space in the dictionary: how far that was filled before it.
#[derive(Clone, Copy)]
pub struct NoSpace {
    pub filled: Filled,
}

// Names the texts of the first n lines of a batch: the vocabulary's, those in a segment of the dictionary, and, entered behind its entries,
// all others. How far the dictionary is filled then.
pub fn name_batch(
    file: &[u8],
    lines: &[usize],
    n: usize,
    dictionary: &mut [u8],
    f: Filled,
    terms: &mut [u32],
) -> Result<Filled, NoSpace>
    requires { CanNameBatch dictionary.old f file.now lines.now n terms.old }
    ensures { (es : List Entry) (ts : List TextTriple) → IsBatch file.now lines.now n ts → FilledBy dictionary.old f es → IsBatched es ts dictionary.new terms.new result }
{
    name_vocabulary(file, lines, n, terms);
    let mut first = 0;
    let mut filled = f;
    loop {
        match name_segment(file, lines, n, dictionary, first, filled, terms) {
            Step::Done(g) => {
                return Ok(g);
            }
            Step::Lacks(g) => {
                return Err(NoSpace { filled: g });
            }
            Step::Next(end, g) => {
                first = end;
                filled = g;
            }
        }
    }
}
