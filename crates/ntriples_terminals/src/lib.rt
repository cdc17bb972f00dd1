// The terminals of N-Triples in bytes of UTF-8: where each ends, or nothing where it does not stand there.
#![tactic(auto)]

ghost use Rattle.std.specs.Prelude.{◌<◌, eqb};
ghost use Rattle.spec_ntriples.specs.computed.Terminals.{outside, string_step, scan, skip};
ghost use Rattle.spec_ntriples.specs.Texts.{is_scheme, is_absolute};
ghost use Rattle.spec_ntriples.specs.computed.Lines.{read_iri};
ghost use Rattle.ntriples_bytes.specs.inside.Places.{At, Utf8From, chars_at};
ghost use Rattle.ntriples_pieces.specs.inside.Pieces.{step_of};
ghost use Rattle.ntriples_terminals.specs.inside.Ends.{behind_head, behind_where, behind_got, behind_read, IsEnd};

use ntriples_bytes::char_at;
use ntriples_chars::{is_letter, is_scheme_char};
use ntriples_pieces::{Piece, Terminal, is_plain, piece_at};

// ---- white space

// Behind the white space at an index.
pub fn skip(line: &[u8], from: usize) -> usize
    requires { Utf8From line.now from }
    ensures { At line.now result (skip (chars_at line.now from)) }
{
    let mut at = from;
    while at < line.len() {
        let m = char_at(line, at);
        if (m.code != b'\t' as u32) & (m.code != b' ' as u32) {
            return at;
        }
        at = m.next;
    }
    at
}

// ---- marks

// Behind a mark, where it stands at an index.
pub fn mark_end(line: &[u8], at: usize, mark: u32) -> Option<usize>
    requires { Utf8From line.now at }
    ensures { IsEnd line.now (behind_head (λ c. eqb c mark) (chars_at line.now at)) result }
{
    if line.len() <= at {
        return None;
    }
    let m = char_at(line, at);
    if m.code == mark {
        return Some(m.next);
    }
    None
}

// ---- IRIs and strings

// Behind the mark that closes an IRI, or a string. No `for`: a turn goes on by a byte, or by the bytes of a piece.
fn closing_end(line: &[u8], terminal: Terminal, from: usize) -> Option<usize>
    requires { Utf8From line.now from }
    ensures { IsEnd line.now (behind_got (scan (step_of terminal) outside (chars_at line.now from))) result }
{
    let mut at = from;
    while at < line.len() {
        if is_plain(terminal, line[at]) {
            at += 1;
            continue;
        }
        match piece_at(line, terminal, at) {
            Piece::Broken => return None,
            Piece::Ends(next) => return Some(next),
            Piece::Gives(_, next) => at = next,
        }
    }
    None
}

// Where a string ends, from behind its first quote.
pub fn string_end(line: &[u8], from: usize) -> Option<usize>
    requires { Utf8From line.now from }
    ensures { IsEnd line.now (behind_got (scan string_step outside (chars_at line.now from))) result }
{
    closing_end(line, Terminal::Quoted, from)
}

// Where an IRI ends, from behind the first character of its scheme.
fn scheme_end(line: &[u8], from: usize) -> Option<usize>
    requires { Utf8From line.now from }
    ensures { IsEnd line.now (behind_where is_scheme (scan (step_of Terminal.Iri) outside (chars_at line.now from))) result }
{
    let mut at = from;
    while at < line.len() {
        let Piece::Gives(c, next) = piece_at(line, Terminal::Iri, at) else {
            return None;
        };
        if c == b':' as u32 {
            return closing_end(line, Terminal::Iri, next);
        }
        if !is_scheme_char(c) {
            return None;
        }
        at = next;
    }
    None
}

// Where an absolute IRI ends, from behind its first mark.
fn absolute_end(line: &[u8], from: usize) -> Option<usize>
    requires { Utf8From line.now from }
    ensures { IsEnd line.now (behind_where is_absolute (scan (step_of Terminal.Iri) outside (chars_at line.now from))) result }
{
    if line.len() <= from {
        return None;
    }
    let Piece::Gives(c, next) = piece_at(line, Terminal::Iri, from) else {
        return None;
    };
    if is_letter(c) {
        return scheme_end(line, next);
    }
    None
}

// Where an IRI ends.
pub fn iri_end(line: &[u8], from: usize) -> Option<usize>
    requires { Utf8From line.now from }
    ensures { IsEnd line.now (behind_read (read_iri (chars_at line.now from))) result }
{
    if line.len() <= from {
        return None;
    }
    let m = char_at(line, from);
    if m.code != b'<' as u32 {
        return None;
    }
    absolute_end(line, m.next)
}
