// The canonical bytes of a character, as a piece of text.
ghost use Rattle.std.specs.Prelude.{◌<◌, [], ◌∷◌, ◌≡◌};
ghost use Rattle.spec_ntriples.specs.Utf8.{encode_char};
ghost use Rattle.spec_ntriples.specs.Texts.{canonical_char};
ghost use Rattle.ntriples_cursor.specs.inside.Coming.{Holds};
ghost use Rattle.ntriples_cursor.specs.inside.Letters.{letter_of};

use crate::{Cursor, Piece};

const QUOTE: u32 = 0x22;

const BACKSLASH: u32 = 0x5C;

const LINE_FEED: u32 = 0x0A;

const CARRIAGE_RETURN: u32 = 0x0D;

// One byte.
pub fn single(b: u8, next: Cursor) -> Piece
    ensures { Holds (b ∷ []) next result }
{
    Piece {
        bytes: [b, 0, 0, 0],
        len: 1,
        next,
    }
}

// Two bytes.
pub fn double(a: u8, b: u8, next: Cursor) -> Piece
    ensures { Holds (a ∷ b ∷ []) next result }
{
    Piece {
        bytes: [a, b, 0, 0],
        len: 2,
        next,
    }
}

// Three bytes.
pub fn triple(a: u8, b: u8, d: u8, next: Cursor) -> Piece
    ensures { Holds (a ∷ b ∷ d ∷ []) next result }
{
    Piece {
        bytes: [a, b, d, 0],
        len: 3,
        next,
    }
}

// The bytes of a character in UTF-8.
pub fn encoded(c: u32, next: Cursor) -> Piece
    requires { c < 0x200000 }
    ensures { Holds (encode_char c) next result }
{
    if c < 0x80 {
        return single(c as u8, next);
    }
    let last = (0x80 + c % 64) as u8;
    if c < 0x800 {
        return double((0xC0 + c / 64) as u8, last, next);
    }
    let third = (0x80 + c / 64 % 64) as u8;
    if c < 0x10000 {
        return triple((0xE0 + c / 4096) as u8, third, last, next);
    }
    Piece {
        bytes: [
            (0xF0 + c / 262144) as u8,
            (0x80 + c / 4096 % 64) as u8,
            third,
            last,
        ],
        len: 4,
        next,
    }
}

// The letter behind the backslash of a character that is escaped in canonical text.
fn letter_of(c: u32) -> Option<u8>
    ensures { result ≡ letter_of c }
{
    if c == QUOTE {
        return Some(b'"');
    }
    if c == BACKSLASH {
        return Some(b'\\');
    }
    if c == LINE_FEED {
        return Some(b'n');
    }
    if c == CARRIAGE_RETURN {
        return Some(b'r');
    }
    None
}

// The canonical bytes of a string's character.
pub fn canonical(c: u32, next: Cursor) -> Piece
    requires { c < 0x200000 }
    ensures { Holds (canonical_char c) next result }
{
    match letter_of(c) {
        Some(letter) => double(b'\\', letter, next),
        None => encoded(c, next),
    }
}
