// A line of N-Triples in bytes of UTF-8: whether it is wrong, empty or has a triple, and where the triple's terms stand.
#![tactic(auto)]

ghost use Rattle.std.specs.Prelude.{◌≡◌, true, List, ℕ};
ghost use Rattle.spec_ntriples.specs.computed.Decoded.{decoded, decode};
ghost use Rattle.spec_ntriples.specs.computed.Terminals.{skip};
ghost use Rattle.spec_ntriples.specs.Texts.{Text};
ghost use Rattle.spec_ntriples.specs.computed.Lines.{read_iri, read_object, is_rest, after_object, after_property, read_line};
ghost use Rattle.ntriples_bytes.specs.inside.Places.{Utf8From, chars_at, HasText};
ghost use Rattle.ntriples_lines.specs.inside.Reading.{is_ended, IsLine};

use ntriples_bytes::char_at;
use ntriples_ends::{object_end, subject_end};
use ntriples_terminals::{iri_end, mark_end, skip};

// The place of a term in a line: from its first byte to the one behind its last.
#[derive(Clone, Copy)]
pub struct Token {
    pub from: usize,
    pub end: usize,
}

// The places of a triple's terms.
#[derive(Clone, Copy)]
pub struct Tokens {
    pub subject: Token,
    pub property: Token,
    pub object: Token,
}

// A line: one that breaks the grammar, one with no triple, or one with a triple.
#[derive(Clone, Copy)]
pub enum Line {
    Wrong,
    Empty,
    Full(Tokens),
}

// Whether a comment or nothing is at an index.
fn is_rest(line: &[u8], at: usize) -> bool
    requires { Utf8From line.now at }
    ensures { result ≡ is_rest (chars_at line.now at) }
{
    if line.len() <= at {
        return true;
    }
    char_at(line, at).code == b'#' as u32
}

// Whether a dot, and no more, is behind white space at an index.
fn is_ended(line: &[u8], at: usize) -> bool
    requires { Utf8From line.now at }
    ensures { result ≡ is_ended (skip (chars_at line.now at)) }
{
    match mark_end(line, skip(line, at), b'.' as u32) {
        Some(next) => is_rest(line, skip(line, next)),
        None => false,
    }
}

// The line with a subject and a property: behind them the object.
fn after_property(line: &[u8], subject: Token, property: Token) -> Line
    requires { Utf8From line.now property.end }
    ensures { (s p : Text) → HasText line.now subject.from subject.end s → HasText line.now property.from property.end p → IsLine line.now (after_object s p (read_object (skip (chars_at line.now property.end)))) result }
{
    let from = skip(line, property.end);
    let Some(end) = object_end(line, from) else {
        return Line::Wrong;
    };
    if !is_ended(line, end) {
        return Line::Wrong;
    }
    Line::Full(Tokens {
        subject,
        property,
        object: Token { from, end },
    })
}

// The line with a subject: behind it the property.
fn after_subject(line: &[u8], subject: Token) -> Line
    requires { Utf8From line.now subject.end }
    ensures { (s : Text) → HasText line.now subject.from subject.end s → IsLine line.now (after_property s (read_iri (skip (chars_at line.now subject.end)))) result }
{
    let from = skip(line, subject.end);
    let Some(end) = iri_end(line, from) else {
        return Line::Wrong;
    };
    after_property(line, subject, Token { from, end })
}

// A line read.
pub fn read_line(line: &[u8]) -> Line
    requires { Utf8From line.now 0 }
    ensures { (l : List ℕ) → decode line.now ≡ decoded l → IsLine line.now (read_line l) result }
{
    let from = skip(line, 0);
    if is_rest(line, from) {
        return Line::Empty;
    }
    let Some(end) = subject_end(line, from) else {
        return Line::Wrong;
    };
    after_subject(line, Token { from, end })
}
