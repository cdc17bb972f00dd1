// The labels of blank nodes and the tags of languages in bytes of UTF-8: where each ends.
#![tactic(auto)]

ghost use Rattle.std.specs.Prelude.{◌≡◌, ◌||◌};
ghost use Rattle.spec_ntriples.specs.Characters.{is_digit, is_pn_chars_u};
ghost use Rattle.spec_ntriples.specs.computed.Terminals.{label, head_is, tag};
ghost use Rattle.ntriples_bytes.specs.inside.Places.{Utf8From, chars_at};
ghost use Rattle.ntriples_terminals.specs.inside.Ends.{behind_head, behind_got, Ended, IsEnd};
ghost use Rattle.ntriples_labels.specs.inside.Inside.{goes_on};

use ntriples_bytes::char_at;
use ntriples_chars::{is_digit, is_letter, is_letter_or_digit, is_pn_chars, is_pn_chars_u};

// ---- labels

// Behind the first character of a label, where one stands at an index.
pub fn label_begin(line: &[u8], at: usize) -> Option<usize>
    requires { Utf8From line.now at }
    ensures { IsEnd line.now (behind_head (λ c. is_pn_chars_u c || is_digit c) (chars_at line.now at)) result }
{
    if line.len() <= at {
        return None;
    }
    let m = char_at(line, at);
    if is_pn_chars_u(m.code) | is_digit(m.code) {
        return Some(m.next);
    }
    None
}

// Where a label ends, from behind its first character.
pub fn label_end(line: &[u8], from: usize) -> usize
    requires { Utf8From line.now from }
    ensures { Ended line.now (behind_got (label (chars_at line.now from))) result }
{
    let mut end = from;
    let mut at = from;
    while at < line.len() {
        let m = char_at(line, at);
        at = m.next;
        if is_pn_chars(m.code) {
            end = at;
            continue;
        }
        if m.code != b'.' as u32 {
            return end;
        }
    }
    end
}

// ---- tags

// A part of a tag between hyphens: the first has letters, a later one also digits.
#[derive(Clone, Copy)]
pub enum Part {
    First,
    Later,
}

// Whether a character goes on a part of a tag.
#[tactic(auto, unfolding(crate::specs::inside::Inside::goes_on))]
fn goes_on(part: Part, c: u32) -> bool
    ensures { result ≡ goes_on part c }
{
    match part {
        Part::First => is_letter(c),
        Part::Later => is_letter_or_digit(c),
    }
}

// Whether such a character stands at an index.
pub fn is_at_tag(line: &[u8], part: Part, at: usize) -> bool
    requires { Utf8From line.now at }
    ensures { result ≡ head_is (goes_on part) (chars_at line.now at) }
{
    if line.len() <= at {
        return false;
    }
    goes_on(part, char_at(line, at).code)
}

// Where a tag ends, whose first character is known to be a letter.
pub fn tag_end(line: &[u8], from: usize) -> usize
    requires { Utf8From line.now from }
    ensures { Ended line.now (behind_got (tag (goes_on Part.First) (chars_at line.now from))) result }
{
    let mut part = Part::First;
    let mut at = from;
    while at < line.len() {
        let m = char_at(line, at);
        let next = m.next;
        if goes_on(part, m.code) {
            at = next;
            continue;
        }
        if m.code != b'-' as u32 {
            return at;
        }
        if !is_at_tag(line, Part::Later, next) {
            return at;
        }
        part = Part::Later;
        at = next;
    }
    at
}
