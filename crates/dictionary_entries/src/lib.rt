// Entries written behind the last of a dictionary, and taken away again.
#![tactic(auto)]

ghost use Rattle.std.specs.Prelude.{◌≡◌, List, [], ◌∷◌, ◌++◌, ◌+◌, ◌≤◌, ◌<◌, length};
ghost use Rattle.std.proofs.lemmas.List.Edits.{sets};
ghost use Rattle.spec_ntriples.specs.Texts.{Text};
ghost use Rattle.spec_ntriples.specs.Dictionary.{Entry, entry, number_bytes, bytes_of_entries};
ghost use Rattle.spec_ntriples.specs.inside.Entries.{Holds};
ghost use Rattle.ntriples_bytes.specs.inside.Places.{HasText};
ghost use Rattle.ntriples_text.specs.inside.Tokens.{HasRoom};

use dictionary_bytes::{HEADER, LENGTH_BYTES, TERM_BYTES};
use ntriples_text::text_length;
use ntriples_text_written::write_text;

// Writes a number in n bytes from an index on, the lowest first.
fn write_number(out: &mut [u8], at: usize, n: usize, number: usize)
    requires { at + n ≤ length out.old }
    ensures { out.new ≡ sets out.old at (number_bytes n number) }
{
    let mut rest = number;
    for b in out[at..at + n].iter_mut() {
        *b = (rest % 256) as u8;
        rest = rest / 256;
    }
}

// Writes the entry of a term in a line behind the entries of a dictionary, which end at an index, and gives the index behind it.
pub fn write_entry(
    dictionary: &mut [u8],
    end: usize,
    term: u32,
    line: &[u8],
    from: usize,
    to: usize,
) -> usize
    requires term_nonzero { 0 < term }
    requires has_room { HasRoom line.now from to dictionary.old (end + 12) }
    ensures { (es : List Entry) (t : Text) → Holds dictionary.old end es → HasText line.now from to t → Holds dictionary.new result (es ++ (entry term t.bytes ∷ [])) }
{
    let n = text_length(line, from, to);
    write_number(dictionary, end, TERM_BYTES, term as usize);
    write_number(dictionary, end + TERM_BYTES, LENGTH_BYTES, n);
    write_text(line, from, to, dictionary, end + HEADER)
}

// Takes away the entries of a dictionary that stand between an index and their end: their bytes are zero again.
pub fn take_back(dictionary: &mut [u8], from: usize, end: usize)
    requires { end ≤ length dictionary.old }
    ensures { (ds fs : List Entry) → Holds dictionary.old end (ds ++ fs) → from ≡ length (bytes_of_entries ds) → Holds dictionary.new from ds }
{
    dictionary[from.min(end)..end].fill(0);
}
