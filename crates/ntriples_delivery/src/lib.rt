// The delivery that a reading gives: additions, from the terms of the lines' triples.
#![tactic(auto)]

ghost use Rattle.std.specs.Prelude.{◌≡◌, ◌+◌, ◌*◌, ◌≤◌, length};
ghost use Rattle.spec.specs.Tables.{first_rows};
ghost use Rattle.spec.specs.Lists.{padded};
ghost use Rattle.spec.specs.Messages.{encode};
ghost use Rattle.spec_ntriples.specs.Reading.{additions};

use ntriples_section::{COUNT_BYTES, write_section};
use ntriples_zero::clear;

// The bytes of a delivery before its third section, the statements added.
const STATEMENTS_AT: usize = 4;

// Writes the delivery of n triples, three words each, with zeros to the end, and gives its length.
pub fn write_delivery(terms: &[u32], n: usize, delivery: &mut [u8]) -> usize
    requires n_in_bounds { (n * 3 ≤ length terms.now) × (n ≤ 5460) }
    requires n_in_bounds_2 { 10 + 12 * n ≤ length delivery.old }
    ensures written { delivery.new ≡ padded (length delivery.old) (encode (additions (first_rows n terms.now))) }
    ensures whole { result ≡ 10 + 12 * n }
{
    clear(delivery);
    let facts = write_section(terms, n, true, delivery, STATEMENTS_AT);
    let end = write_section(terms, n, false, delivery, facts);
    end + COUNT_BYTES
}
