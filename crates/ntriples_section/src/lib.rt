// A section of the delivery that a reading gives: the statements or the facts among the lines' triples.
#![tactic(auto)]

mod bytes; // bytes.rt: numbers, words and entries written as bytes

ghost use Rattle.std.specs.Prelude.{◌≡◌, ◌+◌, ◌*◌, ◌≤◌, length};
ghost use Rattle.std.proofs.lemmas.List.Edits.{sets};
ghost use Rattle.spec.specs.Messages.{entries_bytes, section_bytes};
ghost use Rattle.ntriples_section.specs.inside.Sections.{chosen};

use bytes::{write_entry, write_short};
use table::row_from;
use terms::is_statement;

// The bytes of a count, and of an entry.
pub const COUNT_BYTES: usize = 2;

const ENTRY_BYTES: usize = 12;

// Writes those of n triples that are statements, or those that are facts, from an index on, and gives the index behind them.
fn write_entries(terms: &[u32], n: usize, statements: bool, out: &mut [u8], at: usize) -> usize
    requires n_in_bounds { n * 3 ≤ length terms.now }
    requires terms_in_bounds { at + length (chosen statements n terms.now) * 12 ≤ length out.old }
    ensures out_after { out.new ≡ sets out.old at (entries_bytes (chosen statements n terms.now)) }
    ensures value { result ≡ at + length (chosen statements n terms.now) * 12 }
{
    let mut place = at;
    for i in 0..n {
        let t = row_from(terms, i);
        if is_statement(t) == statements {
            write_entry(t, out, place);
            place += ENTRY_BYTES;
        }
    }
    place
}

// Writes the section of these, from an index on, and gives the index behind it.
pub fn write_section(terms: &[u32], n: usize, statements: bool, out: &mut [u8], at: usize) -> usize
    requires n_in_bounds { (n * 3 ≤ length terms.now) × (n ≤ 5460) }
    requires terms_in_bounds { at + 2 + length (chosen statements n terms.now) * 12 ≤ length out.old }
    ensures out_after { out.new ≡ sets out.old at (section_bytes (chosen statements n terms.now)) }
    ensures value { result ≡ at + 2 + length (chosen statements n terms.now) * 12 }
{
    let first = at + COUNT_BYTES;
    let end = write_entries(terms, n, statements, out, first);
    write_short(((end - first) / ENTRY_BYTES) as u16, out, at);
    end
}
