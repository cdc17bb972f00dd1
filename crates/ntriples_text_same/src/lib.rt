// Whether the canonical text of a term that stands in a line is a text.
#![tactic(auto)]

ghost use Rattle.std.specs.Prelude.{◌≡◌, true, ◌&&◌, List, ◌∷◌, ℕ, ◌+◌, ◌-◌, ◌≤◌, length, take, drop};
ghost use Rattle.spec_ntriples.specs.Texts.{Text, is_same_text};
ghost use Rattle.ntriples_bytes.specs.inside.Places.{HasText};
ghost use Rattle.ntriples_text.specs.inside.Tokens.{IsToken};

use ntriples_cursor::steps::{is_piece, next_piece};
use ntriples_cursor::{Cursor, Mode};
use ntriples_own::is_own;

// Whether a byte stands first in the bytes left from an index on.
fn is_byte(b: u8, text: &[u8], at: usize, left: usize) -> bool
    requires { at + left ≤ length text.now }
    ensures fits { result ≡ true → 1 ≤ left }
    ensures first { (later : List ℕ) → is_same_text (b ∷ later) (take left (drop at text.now)) ≡ (result && is_same_text later (take (left - 1) (drop (at + 1) text.now))) }
{
    if left == 0 {
        return false;
    }
    b == text[at]
}

// Whether a term's text is the n bytes from an index on.
pub fn is_text(line: &[u8], from: usize, end: usize, text: &[u8], at: usize, n: usize) -> bool
    requires token { IsToken line.now from end }
    requires n_in_bounds { at + n ≤ length text.now }
    ensures { (t : Text) → HasText line.now from end t → result ≡ is_same_text t.bytes (take n (drop at text.now)) }
{
    let mut c = Cursor {
        place: from,
        mode: Mode::Term,
    };
    let mut i = 0;
    while c.place < end {
        let place = c.place;
        let mode = c.mode;
        let b = line[place];
        if is_own(mode, b) {
            if !is_byte(b, text, at + i, n - i) {
                return false;
            }
            i += 1;
            c = Cursor {
                place: place + 1,
                mode,
            };
            continue;
        }
        let p = next_piece(line, end, c);
        if !is_piece(p, text, at + i, n - i) {
            return false;
        }
        i += p.len;
        c = p.next;
    }
    i == n
}
