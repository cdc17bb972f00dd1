// N-Triples read with a dictionary into a delivery.
#![tactic(auto)]

ghost use Rattle.std.specs.Prelude.{◌≡◌, ◌+◌, ◌*◌, min, length, leb};
ghost use Rattle.spec.specs.Messages.{most_bytes};
ghost use Rattle.spec_ntriples.specs.Reading.{read_file, read_nTriples};
ghost use Rattle.ntriples_read.specs.inside.Reading.{CanRead};

use dictionary_bytes::Filled;
use dictionary_check::check_dictionary;
use dictionary_entries::take_back;
use ntriples_batches::{MOST_LINES, name_file};
use ntriples_delivery::write_delivery;
use ntriples_document::count_triples;
use ntriples_zero::clear;
use spec::Reply;

// The words of as many triples as a delivery has room for.
const WORDS: usize = 16380;

// The bytes of a delivery without triples, and of one triple.
const EMPTY_BYTES: usize = 10;

const TRIPLE_BYTES: usize = 12;

// The terms of no triple.
fn no_terms() -> [u32; WORDS]
    ensures { length result ≡ 16380 }
{
    [0u32; WORDS]
}

// Question 15: whether a delivery of n triples has room in len bytes, and in the most that one has.
fn has_room(n: usize, len: usize) -> bool
    ensures { result ≡ leb (10 + 12 * n) (min len most_bytes) }
{
    if MOST_LINES < n {
        return false;
    }
    EMPTY_BYTES + TRIPLE_BYTES * n <= len
}

// Reads a file of n triples with a dictionary that is filled so far into a delivery of zeros: questions 14 and 15.
fn read_triples(
    file: &[u8],
    n: usize,
    dictionary: &mut [u8],
    f: Filled,
    delivery: &mut [u8],
) -> Reply
    requires { CanRead file.now n dictionary.old f delivery.old }
    ensures { read_file result dictionary.new delivery.new ≡ read_nTriples dictionary.old file.now (length delivery.old) }
{
    let mut terms = no_terms();
    match name_file(file, n, dictionary, f, &mut terms) {
        Err(tried) => {
            take_back(dictionary, f.end, tried.filled.end);
            Err(14)
        }
        Ok(named) => {
            if has_room(n, delivery.len()) {
                return Ok(write_delivery(&terms, n, delivery));
            }
            take_back(dictionary, f.end, named.end);
            Err(15)
        }
    }
}

// Reads a file of N-Triples with a dictionary (the term book of document 02) into a delivery: questions 1, 13, 14 and 15, each of the whole
// file before the next. Refused, the dictionary is as it was and the delivery is zero.
pub fn read_ntriples(file: &[u8], dictionary: &mut [u8], delivery: &mut [u8]) -> Reply
    ensures { read_file result dictionary.new delivery.new ≡ read_nTriples dictionary.old file.now (length delivery.old) }
{
    clear(delivery);
    let Some(f) = check_dictionary(dictionary) else {
        return Err(1);
    };
    let Some(n) = count_triples(file) else {
        return Err(13);
    };
    read_triples(file, n, dictionary, f, delivery)
}
