// The characters of IRIs and strings in bytes, escapes resolved.
#![tactic(auto)]

ghost use Rattle.std.specs.Prelude.{◌≡◌, true, ◌&&◌, cond, ℕ, ◌≤◌, ◌<◌, length, ltb};
ghost use Rattle.spec_ntriples.specs.Utf8.{is_scalar};
ghost use Rattle.spec_ntriples.specs.computed.Terminals.{State, outside, slash, digits, scan};
ghost use Rattle.ntriples_bytes.specs.inside.Places.{Utf8From, chars_at};
ghost use Rattle.ntriples_pieces.specs.inside.Pieces.{step_of, may_stand, may_escape, closing_of, IsPiece};

use ntriples_bytes::{BEHIND_ASCII, char_at};
use ntriples_chars::{
    LAST_CODE, NO_CHAR, echar, hex_value, is_iri_char, is_scalar, is_string_char,
};

// A terminal whose characters are read: an IRI, or a string.
#[derive(Clone, Copy)]
pub enum Terminal {
    Iri,
    Quoted,
}

// What stands at an index of an IRI or a string: nothing that may; its closing mark, with the index behind; or a character, as it is or
// as an escape, with the index behind.
#[derive(Clone, Copy)]
pub enum Piece {
    Broken,
    Ends(usize),
    Gives(u32, usize),
}

// Whether a character may stand in an IRI, or in a string, as it is.
#[tactic(auto, unfolding(crate::specs::inside::Pieces::may_stand))]
fn may_stand(terminal: Terminal, c: u32) -> bool
    ensures { result ≡ may_stand terminal c }
{
    match terminal {
        Terminal::Iri => is_iri_char(c),
        Terminal::Quoted => is_string_char(c),
    }
}

// Whether an escape may stand for a character there.
#[tactic(auto, unfolding(crate::specs::inside::Pieces::may_escape))]
fn may_escape(terminal: Terminal, c: u32) -> bool
    ensures { result ≡ may_escape terminal c }
{
    match terminal {
        Terminal::Iri => is_iri_char(c),
        Terminal::Quoted => true,
    }
}

// The mark that closes an IRI, or a string.
#[tactic(auto, unfolding(crate::specs::inside::Pieces::closing_of))]
fn closing(terminal: Terminal) -> u32
    ensures { result ≡ closing_of terminal }
{
    match terminal {
        Terminal::Iri => b'>' as u32,
        Terminal::Quoted => b'"' as u32,
    }
}

// Whether a byte is a character that may stand there as it is.
pub fn is_plain(terminal: Terminal, b: u8) -> bool
    ensures { result ≡ (ltb b 0x80 && may_stand terminal b) }
{
    (b < BEHIND_ASCII) & may_stand(terminal, u32::from(b))
}

// The piece of an escape with a number, whose last digit stands before an index.
fn number_piece(terminal: Terminal, value: u32, next: usize) -> Piece
    ensures { result ≡ cond (is_scalar value && may_escape terminal value) (Piece.Gives value next) Piece.Broken }
{
    if is_scalar(value) & may_escape(terminal, value) {
        return Piece::Gives(value, next);
    }
    Piece::Broken
}

// The piece of an escape whose count digits stand from an index on.
fn digits_at(line: &[u8], terminal: Terminal, from: usize, count: u32) -> Piece
    requires utf8from { Utf8From line.now from }
    requires count_nonzero { 0 < count }
    ensures { IsPiece (step_of terminal) (digits count 0) line.now from result }
{
    let mut value: u32 = 0;
    let mut at = from;
    for _ in 0..count {
        if line.len() <= at {
            return Piece::Broken;
        }
        let m = char_at(line, at);
        let h = hex_value(m.code);
        if 16 <= h {
            return Piece::Broken;
        }
        value = value * 16 + h;
        if LAST_CODE < value {
            return Piece::Broken;
        }
        at = m.next;
    }
    number_piece(terminal, value, at)
}

// The piece of an escape, from behind its backslash.
fn escape_at(line: &[u8], terminal: Terminal, at: usize) -> Piece
    requires { Utf8From line.now at }
    ensures { IsPiece (step_of terminal) slash line.now at result }
{
    if line.len() <= at {
        return Piece::Broken;
    }
    let m = char_at(line, at);
    if m.code == b'u' as u32 {
        return digits_at(line, terminal, m.next, 4);
    }
    if m.code == b'U' as u32 {
        return digits_at(line, terminal, m.next, 8);
    }
    let c = match terminal {
        Terminal::Iri => return Piece::Broken,
        Terminal::Quoted => echar(m.code),
    };
    if c < NO_CHAR {
        return Piece::Gives(c, m.next);
    }
    Piece::Broken
}

// The piece at an index.
pub fn piece_at(line: &[u8], terminal: Terminal, at: usize) -> Piece
    requires utf8from { Utf8From line.now at }
    requires at_in_bounds { at < length line.now }
    ensures { IsPiece (step_of terminal) outside line.now at result }
{
    let m = char_at(line, at);
    if m.code == closing(terminal) {
        return Piece::Ends(m.next);
    }
    if m.code == b'\\' as u32 {
        return escape_at(line, terminal, m.next);
    }
    if may_stand(terminal, m.code) {
        return Piece::Gives(m.code, m.next);
    }
    Piece::Broken
}
