// What is asked of rows before they are written with a dictionary's texts: that each of their terms has one.
#![tactic(auto)]

ghost use Rattle.std.specs.Prelude.{◌≡◌, true, List, ℕ};
ghost use Rattle.spec.specs.Lists.{all};
ghost use Rattle.spec.specs.Tables.{rows};
ghost use Rattle.spec.specs.inside.Laid.{Laid};
ghost use Rattle.spec_ntriples.specs.Dictionary.{entries, is_dictionary};
ghost use Rattle.spec_writing.specs.Writing.{has_text, has_texts};
ghost use Rattle.dictionary_bytes.specs.inside.Entries.{FilledBy};

use dictionary_bytes::Filled;
use dictionary_ranks::has_entry;
use terms::Term;

// Whether a term has a text: it is of the vocabulary, or an entry has it.
fn has_text(f: Filled, term: u32) -> bool
    ensures { (bs : List ℕ) → is_dictionary bs ≡ true → FilledBy bs f (entries bs) → result ≡ has_text (entries bs) term }
{
    let t = Term { word: term };
    if t.is_vocabulary() {
        return true;
    }
    has_entry(f, term)
}

// Question 16: whether all terms of a table's rows have texts. Numbers are consecutive, so that the counts tell, without a search.
pub fn have_texts(table: &[u32], f: Filled) -> bool
    requires { Laid table.now }
    ensures { (bs : List ℕ) → is_dictionary bs ≡ true → FilledBy bs f (entries bs) → result ≡ all (has_texts (entries bs)) (rows table.now) }
{
    let end = table[0] as usize * 3 + 1;
    for term in &table[1..end] {
        if !has_text(f, *term) {
            return false;
        }
    }
    true
}
