// Where the terms of N-Triples end in bytes of UTF-8, or nothing where they do not stand there.
#![tactic(auto)]

ghost use Rattle.std.specs.Prelude.{List, ℕ};
ghost use Rattle.spec_ntriples.specs.computed.Terminals.{outside, string_step, scan, skip};
ghost use Rattle.spec_ntriples.specs.Texts.{Text};
ghost use Rattle.spec_ntriples.specs.computed.Lines.{read, read_blank, read_type, suffixed, literal_of, read_subject, read_object};
ghost use Rattle.ntriples_bytes.specs.inside.Places.{Utf8From, chars_at};
ghost use Rattle.ntriples_terminals.specs.inside.Ends.{behind_read, IsEnd};
ghost use Rattle.ntriples_ends.specs.inside.Reading.{behind_labelled, behind_tag, behind_type};

use ntriples_labels::{Part, is_at_tag, label_begin, label_end, tag_end};
use ntriples_terminals::{iri_end, mark_end, skip, string_end};

// Where a label ends.
fn labelled_end(line: &[u8], at: usize) -> Option<usize>
    requires { Utf8From line.now at }
    ensures { IsEnd line.now (behind_labelled (chars_at line.now at)) result }
{
    let next = label_begin(line, at)?;
    Some(label_end(line, next))
}

// Where a blank node ends, from behind its first character.
fn blank_end(line: &[u8], at: usize) -> Option<usize>
    requires { Utf8From line.now at }
    ensures { IsEnd line.now (behind_read (read_blank (chars_at line.now at))) result }
{
    let next = mark_end(line, at, b':' as u32)?;
    labelled_end(line, next)
}

// Where a subject ends.
pub fn subject_end(line: &[u8], at: usize) -> Option<usize>
    requires { Utf8From line.now at }
    ensures { IsEnd line.now (behind_read (read_subject (chars_at line.now at))) result }
{
    match mark_end(line, at, b'_' as u32) {
        Some(next) => blank_end(line, next),
        None => iri_end(line, at),
    }
}

// Where a literal's datatype ends, from behind the first "^".
fn type_end(line: &[u8], at: usize) -> Option<usize>
    requires { Utf8From line.now at }
    ensures { (string : List ℕ) → IsEnd line.now (behind_read (read_type string (chars_at line.now at))) result }
{
    let next = mark_end(line, at, b'^' as u32)?;
    iri_end(line, skip(line, next))
}

// Where a literal's language tag ends, from behind "@".
fn language_end(line: &[u8], at: usize) -> Option<usize>
    requires { Utf8From line.now at }
    ensures { IsEnd line.now (behind_tag (chars_at line.now at)) result }
{
    if is_at_tag(line, Part::First, at) {
        return Some(tag_end(line, at));
    }
    None
}

// Where a literal without a language tag ends, from behind its string at an index and white space at another.
fn typed_end(line: &[u8], end: usize, at: usize) -> Option<usize>
    requires utf8from { Utf8From line.now end }
    requires utf8from_2 { Utf8From line.now at }
    ensures { (string : List ℕ) → IsEnd line.now (behind_type string (chars_at line.now end) (chars_at line.now at)) result }
{
    match mark_end(line, at, b'^' as u32) {
        Some(next) => type_end(line, next),
        None => Some(end),
    }
}

// Where a literal ends, from behind its string.
fn suffix_end(line: &[u8], end: usize) -> Option<usize>
    requires { Utf8From line.now end }
    ensures { (string : List ℕ) (t : Text) → IsEnd line.now (behind_read (suffixed string (read t (chars_at line.now end)) (skip (chars_at line.now end)))) result }
{
    let at = skip(line, end);
    match mark_end(line, at, b'@' as u32) {
        Some(next) => language_end(line, next),
        None => typed_end(line, end, at),
    }
}

// Where a literal ends, from behind its first quote.
fn literal_end(line: &[u8], at: usize) -> Option<usize>
    requires { Utf8From line.now at }
    ensures { IsEnd line.now (behind_read (literal_of (scan string_step outside (chars_at line.now at)))) result }
{
    let end = string_end(line, at)?;
    suffix_end(line, end)
}

// Where an object ends.
pub fn object_end(line: &[u8], at: usize) -> Option<usize>
    requires { Utf8From line.now at }
    ensures { IsEnd line.now (behind_read (read_object (chars_at line.now at))) result }
{
    match mark_end(line, at, b'"' as u32) {
        Some(next) => literal_end(line, next),
        None => subject_end(line, at),
    }
}
