// The lines of a whole file against a dictionary, batch by batch.
#![tactic(auto)]

ghost use Rattle.std.specs.Prelude.{◌≡◌, List, length};
ghost use Rattle.spec_ntriples.specs.Texts.{TextTriple};
ghost use Rattle.spec_ntriples.specs.computed.Lines.{triples, document};
ghost use Rattle.spec_ntriples.specs.Dictionary.{Entry};
ghost use Rattle.dictionary_bytes.specs.inside.Entries.{FilledBy};
ghost use Rattle.ntriples_batches.specs.inside.Batches.{CanNameFile, IsFile};

use dictionary_bytes::Filled;
use ntriples_batch::gather_lines;
use ntriples_segments::{NoSpace, name_batch};

// The most lines of a batch: the triples that a delivery has room for.
pub const MOST_LINES: usize = 5460;

// The begins of no line.
fn no_lines() -> [usize; MOST_LINES]
    ensures { length result ≡ 5460 }
{
    [0usize; MOST_LINES]
}

// Names the texts of the n lines of a file that have a triple: each gets its term, and an entry behind those of the dictionary where it has
// none. The terms of the last batch are those of its lines. How far the dictionary is filled then.
pub fn name_file(
    file: &[u8],
    n: usize,
    dictionary: &mut [u8],
    f: Filled,
    terms: &mut [u32],
) -> Result<Filled, NoSpace>
    requires { CanNameFile file.now n dictionary.old f terms.old }
    ensures { (es : List Entry) (ts : List TextTriple) → document file.now ≡ triples ts → n ≡ length ts → FilledBy dictionary.old f es → IsFile es ts dictionary.new terms.new result }
{
    let mut lines = no_lines();
    let mut from = 0;
    let mut left = n;
    let mut filled = f;
    while 0 < left {
        let batch = gather_lines(file, from, &mut lines);
        from = batch.next;
        left -= batch.count;
        filled = match name_batch(file, &lines, batch.count, dictionary, filled, terms) {
            Ok(more) => more,
            Err(lacks) => return Err(lacks),
        };
    }
    Ok(filled)
}
