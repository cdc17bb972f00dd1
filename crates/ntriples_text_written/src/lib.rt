// The canonical text of a term that stands in a line, written into bytes.
#![tactic(auto)]

ghost use Rattle.std.specs.Prelude.{◌≡◌, ◌+◌, ◌≤◌, length, take};
ghost use Rattle.std.proofs.lemmas.List.Edits.{sets};
ghost use Rattle.spec_ntriples.specs.Texts.{Text};
ghost use Rattle.ntriples_bytes.specs.inside.Places.{HasText};
ghost use Rattle.ntriples_text.specs.inside.Tokens.{HasRoom};

use ntriples_cursor::steps::next_piece;
use ntriples_cursor::{Cursor, Mode, Piece};
use ntriples_own::is_own;

// Writes a piece from an index on.
fn write_piece(p: Piece, out: &mut [u8], at: usize)
    requires len_bound { (p.len ≤ 4) × (4 ≤ length p.bytes) }
    requires len_in_bounds { at + p.len ≤ length out.old }
    ensures { out.new ≡ sets out.old at (take p.len p.bytes) }
{
    let bytes = p.bytes;
    out[at..at + p.len].copy_from_slice(&bytes[..p.len]);
}

// Writes a term's text from an index on, and gives the index behind it.
pub fn write_text(line: &[u8], from: usize, end: usize, out: &mut [u8], at: usize) -> usize
    requires { HasRoom line.now from end out.old at }
    ensures out_after { (t : Text) → HasText line.now from end t → out.new ≡ sets out.old at t.bytes }
    ensures value { (t : Text) → HasText line.now from end t → result ≡ at + length t.bytes }
{
    let mut c = Cursor {
        place: from,
        mode: Mode::Term,
    };
    let mut i = at;
    while c.place < end {
        let place = c.place;
        let mode = c.mode;
        let b = line[place];
        if is_own(mode, b) {
            out[i] = b;
            i += 1;
            c = Cursor {
                place: place + 1,
                mode,
            };
            continue;
        }
        let p = next_piece(line, end, c);
        write_piece(p, out, i);
        i += p.len;
        c = p.next;
    }
    i
}
