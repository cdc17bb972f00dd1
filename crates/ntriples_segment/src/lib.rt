// A batch of lines against one segment of a dictionary.
#![tactic(auto)]

ghost use Rattle.std.specs.Prelude.{List};
ghost use Rattle.spec_ntriples.specs.Texts.{TextTriple};
ghost use Rattle.spec_ntriples.specs.Dictionary.{Entry};
ghost use Rattle.ntriples_last.specs.inside.Segments.{IsBatch, Looked, CanLook, IsSegmentStep};

use dictionary_bytes::Filled;
use dictionary_index::index_segment;
use dictionary_slots::no_slots;
use ntriples_last::{Step, name_last};
use ntriples_naming::Last;
use ntriples_terms::find_terms;

// Names the texts of a batch in the segment of a dictionary that begins at an index.
pub fn name_segment(
    file: &[u8],
    lines: &[usize],
    n: usize,
    dictionary: &mut [u8],
    first: usize,
    f: Filled,
    terms: &mut [u32],
) -> Step
    requires { CanLook dictionary.old first f file.now lines.now n terms.old }
    ensures { (es : List Entry) (ts : List TextTriple) → IsBatch file.now lines.now n ts → Looked es ts dictionary.old first f terms.old → IsSegmentStep es ts dictionary.new first terms.new result }
{
    let mut slots = no_slots();
    let segment = index_segment(&mut slots, dictionary, first, f.end);
    if segment.end < f.end {
        find_terms(&slots, dictionary, first, file, lines, n, terms);
        return Step::Next(segment.end, f);
    }
    let last = Last {
        count: segment.count,
        filled: f,
    };
    name_last(&mut slots, dictionary, first, last, file, lines, n, terms)
}
