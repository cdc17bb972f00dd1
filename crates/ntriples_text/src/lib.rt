// The canonical text of a term that stands in a line: its length and its hash.
#![tactic(auto)]

ghost use Rattle.std.specs.Prelude.{◌≡◌, ◌+◌, ◌≤◌, ◌<◌, length, take};
ghost use Rattle.spec_ntriples.specs.Texts.{Text};
ghost use Rattle.ntriples_bytes.specs.inside.Places.{HasText};
ghost use Rattle.dictionary_hash.specs.inside.Hashes.{hash_from, hash};
ghost use Rattle.ntriples_text.specs.inside.Tokens.{IsToken};

use dictionary_hash::{hash_from, hash_on};
use ntriples_cursor::steps::next_piece;
use ntriples_cursor::{Cursor, Mode, Piece};
use ntriples_own::is_own;

// The length of a term's text.
pub fn text_length(line: &[u8], from: usize, end: usize) -> usize
    requires { IsToken line.now from end }
    ensures value { (t : Text) → HasText line.now from end t → result ≡ length t.bytes }
    ensures result_bound { from + result ≤ end }
{
    let mut c = Cursor {
        place: from,
        mode: Mode::Term,
    };
    let mut n = 0;
    while c.place < end {
        let place = c.place;
        let mode = c.mode;
        if is_own(mode, line[place]) {
            n += 1;
            c = Cursor {
                place: place + 1,
                mode,
            };
            continue;
        }
        let p = next_piece(line, end, c);
        n += p.len;
        c = p.next;
    }
    n
}

// The hash of a text with a hash that goes on by a piece.
fn hash_piece(h: u64, p: Piece) -> u64
    requires h_bound { h < 4294967296 }
    requires len_bound { (p.len ≤ 4) × (4 ≤ length p.bytes) }
    ensures value { result ≡ hash_from h (take p.len p.bytes) }
    ensures upper_bound { result < 4294967296 }
{
    let bytes = p.bytes;
    hash_from(h, &bytes, 0, p.len)
}

// The hash of a term's text.
pub fn text_hash(line: &[u8], from: usize, end: usize) -> u64
    requires { IsToken line.now from end }
    ensures value { (t : Text) → HasText line.now from end t → result ≡ hash t.bytes }
    ensures upper_bound { result < 4294967296 }
{
    let mut c = Cursor {
        place: from,
        mode: Mode::Term,
    };
    let mut h = 0;
    while c.place < end {
        let place = c.place;
        let mode = c.mode;
        let b = line[place];
        if is_own(mode, b) {
            h = hash_on(h, b);
            c = Cursor {
                place: place + 1,
                mode,
            };
            continue;
        }
        let p = next_piece(line, end, c);
        h = hash_piece(h, p);
        c = p.next;
    }
    h
}
