// The entries of a dictionary asked one by one, and how far it is filled by them.
#![tactic(auto)]

ghost use Rattle.dictionary_walk.specs.inside.Walked.{IsWalk};

use dictionary_bytes::Filled;
use dictionary_step::{is_entry, next_entry};

// The first numbers of URIs, and of blanks and literals.
const FIRST_URI: u32 = 16;

const FIRST_OTHER: u32 = 1;

// Asks the entries one by one: how far they fill the dictionary, or nothing where the bytes are none.
pub fn walk(dictionary: &[u8]) -> Option<Filled>
    ensures { IsWalk dictionary.now result }
{
    let mut f = Filled {
        end: 0,
        uris: FIRST_URI,
        blanks: FIRST_OTHER,
        literals: FIRST_OTHER,
    };
    while is_entry(dictionary, f.end) {
        f = next_entry(dictionary, f)?;
    }
    Some(f)
}
