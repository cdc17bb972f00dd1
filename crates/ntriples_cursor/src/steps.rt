// The steps of a cursor through a term: each gives a piece of the term's canonical text.
ghost use Rattle.std.specs.Prelude.{◌≡◌, true, ◌&&◌, List, ◌++◌, ℕ, ◌+◌, ◌-◌, ◌≤◌, ◌<◌, length, take, drop};
ghost use Rattle.spec_ntriples.specs.Texts.{lower_char, is_same_text};
ghost use Rattle.ntriples_bytes.specs.inside.Places.{At};
ghost use Rattle.ntriples_cursor.specs.inside.Coming.{Typed, Follows, ComingIn, Coming, SomeComing, SomeTyped, SomeFollows, Stepped, IriStepped, type_tail};

use crate::chars::resolved_at;
use crate::pieces::{canonical, double, encoded, single, triple};
use crate::{Cursor, Mode, Piece};
use dictionary_bytes::is_same;
use ntriples_bytes::char_at;
use ntriples_terminals::skip;

const QUOTE: u32 = 0x22;

const GREATER: u32 = 0x3E;

const AT_SIGN: u32 = 0x40;

const UNDERSCORE: u32 = 0x5F;

// Whether a piece stands first in the bytes left from an index on.
pub fn is_piece(p: Piece, text: &[u8], at: usize, left: usize) -> bool
    requires len_bound { (p.len ≤ 4) × (4 ≤ length p.bytes) }
    requires left_in_bounds { at + left ≤ length text.now }
    ensures fits { result ≡ true → p.len ≤ left }
    ensures first { (later : List ℕ) → is_same_text (take p.len p.bytes ++ later) (take left (drop at text.now)) ≡ (result && is_same_text later (take (left - p.len) (drop (at + p.len) text.now))) }
{
    if left < p.len {
        return false;
    }
    let bytes = p.bytes;
    is_same(&bytes, 0, text, at, p.len)
}

// Inside an IRI.
fn iri_piece(line: &[u8], end: usize, place: usize) -> Piece
    requires { SomeComing Mode.Iri line.now end place }
    ensures { (bytes : List ℕ) → ComingIn Mode.Iri line.now end place bytes → IriStepped line.now end place bytes result }
{
    let m = char_at(line, place);
    if m.code == GREATER {
        let next = Cursor {
            place: m.next,
            mode: Mode::Label,
        };
        return single(b'>', next);
    }
    let r = resolved_at(line, place);
    let next = Cursor {
        place: r.next,
        mode: Mode::Iri,
    };
    encoded(r.code, next)
}

// Inside a label.
fn label_piece(line: &[u8], end: usize, place: usize) -> Piece
    requires some_coming { SomeComing Mode.Label line.now end place }
    requires place_lt_end { place < end }
    ensures { (bytes : List ℕ) → ComingIn Mode.Label line.now end place bytes → Stepped line.now end place bytes result }
{
    let m = char_at(line, place);
    let next = Cursor {
        place: m.next,
        mode: Mode::Label,
    };
    encoded(m.code, next)
}

// A character in lower case.
fn lower(c: u32) -> u32
    ensures { result ≡ lower_char c }
{
    if (65 <= c) & (c <= 90) {
        return c + 32;
    }
    c
}

// Inside a tag.
fn tag_piece(line: &[u8], end: usize, place: usize) -> Piece
    requires some_coming { SomeComing Mode.Tag line.now end place }
    requires place_lt_end { place < end }
    ensures { (bytes : List ℕ) → ComingIn Mode.Tag line.now end place bytes → Stepped line.now end place bytes result }
{
    let m = char_at(line, place);
    let next = Cursor {
        place: m.next,
        mode: Mode::Tag,
    };
    single(lower(m.code) as u8, next)
}

// Behind the first mark of a datatype, from before "^^" on.
fn type_inner(line: &[u8], place: usize) -> usize
    requires { SomeTyped line.now place }
    ensures { (cs rest given : List ℕ) → At line.now place cs → (t : Typed cs rest given) → (At line.now result t.inner) × (place + 3 ≤ result) }
{
    let first = char_at(line, place).next;
    let behind = char_at(line, first).next;
    let mark = skip(line, behind);
    char_at(line, mark).next
}

// Whether an IRI goes on as xsd:string does behind its first mark.
fn is_string_type(line: &[u8], end: usize, from: usize) -> bool
    requires { SomeComing Mode.Iri line.now end from }
    ensures { (bytes : List ℕ) → ComingIn Mode.Iri line.now end from bytes → result ≡ is_same_text bytes type_tail }
{
    let text = b"http://www.w3.org/2001/XMLSchema#string>";
    let mut place = from;
    let mut i = 0;
    while place < end {
        let p = iri_piece(line, end, place);
        if !is_piece(p, text, i, text.len() - i) {
            return false;
        }
        i += p.len;
        place = p.next.place;
    }
    i == text.len()
}

// Where the text goes on behind a string.
fn behind_string(line: &[u8], end: usize, place: usize) -> Cursor
    requires { SomeFollows line.now end place }
    ensures { (cs rest more : List ℕ) → At line.now place cs → At line.now end rest → Follows cs rest more → (Coming line.now end result more) × (place ≤ result.place) }
{
    if place == end {
        return Cursor {
            place: end,
            mode: Mode::Label,
        };
    }
    let mark = skip(line, place);
    let shown = Cursor {
        place: mark,
        mode: Mode::Suffix,
    };
    if char_at(line, mark).code == AT_SIGN {
        return shown;
    }
    if is_string_type(line, end, type_inner(line, mark)) {
        return Cursor {
            place: end,
            mode: Mode::Label,
        };
    }
    shown
}

// Inside a string.
fn string_piece(line: &[u8], end: usize, place: usize) -> Piece
    requires { SomeComing Mode.Quoted line.now end place }
    ensures { (bytes : List ℕ) → ComingIn Mode.Quoted line.now end place bytes → Stepped line.now end place bytes result }
{
    let m = char_at(line, place);
    if m.code == QUOTE {
        return single(b'"', behind_string(line, end, m.next));
    }
    let r = resolved_at(line, place);
    let next = Cursor {
        place: r.next,
        mode: Mode::Quoted,
    };
    canonical(r.code, next)
}

// At the mark of a datatype or a tag.
fn suffix_piece(line: &[u8], end: usize, place: usize) -> Piece
    requires some_coming { SomeComing Mode.Suffix line.now end place }
    requires place_lt_end { place < end }
    ensures { (bytes : List ℕ) → ComingIn Mode.Suffix line.now end place bytes → Stepped line.now end place bytes result }
{
    let m = char_at(line, place);
    if m.code == AT_SIGN {
        let next = Cursor {
            place: m.next,
            mode: Mode::Tag,
        };
        return single(b'@', next);
    }
    let next = Cursor {
        place: type_inner(line, place),
        mode: Mode::Iri,
    };
    triple(b'^', b'^', b'<', next)
}

// At the beginning of a term.
fn term_piece(line: &[u8], end: usize, place: usize) -> Piece
    requires some_coming { SomeComing Mode.Term line.now end place }
    requires place_lt_end { place < end }
    ensures { (bytes : List ℕ) → ComingIn Mode.Term line.now end place bytes → Stepped line.now end place bytes result }
{
    let m = char_at(line, place);
    if m.code == QUOTE {
        let next = Cursor {
            place: m.next,
            mode: Mode::Quoted,
        };
        return single(b'"', next);
    }
    if m.code == UNDERSCORE {
        let next = Cursor {
            place: char_at(line, m.next).next,
            mode: Mode::Label,
        };
        return double(b'_', b':', next);
    }
    let next = Cursor {
        place: m.next,
        mode: Mode::Iri,
    };
    single(b'<', next)
}

// The next piece of a text.
pub fn next_piece(line: &[u8], end: usize, c: Cursor) -> Piece
    requires some_coming { SomeComing c.mode line.now end c.place }
    requires place_lt_end { c.place < end }
    ensures { (bytes : List ℕ) → Coming line.now end c bytes → Stepped line.now end c.place bytes result }
{
    let place = c.place;
    let mode = c.mode;
    match mode {
        Mode::Term => term_piece(line, end, place),
        Mode::Iri => iri_piece(line, end, place),
        Mode::Label => label_piece(line, end, place),
        Mode::Quoted => string_piece(line, end, place),
        Mode::Suffix => suffix_piece(line, end, place),
        Mode::Tag => tag_piece(line, end, place),
    }
}
