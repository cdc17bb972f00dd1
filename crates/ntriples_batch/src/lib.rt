// The lines of a document that have a triple: where they begin, and the places of their terms.
#![tactic(auto)]

ghost use Rattle.std.specs.Prelude.{◌≡◌, List, ◌+◌, ◌-◌, ◌≤◌, ◌<◌, length, take, drop};
ghost use Rattle.spec_ntriples.specs.computed.Decoded.{decode};
ghost use Rattle.spec_ntriples.specs.Texts.{TextTriple};
ghost use Rattle.spec_ntriples.specs.computed.Lines.{triples, document};
ghost use Rattle.ntriples_document.specs.inside.Bytes.{line_of};
ghost use Rattle.ntriples_batch.specs.inside.Batches.{has_triple, LineAt, Gathered, IsLineOfTriple, HaveTexts};

use ntriples_breaks::{line_end, next_line};
use ntriples_document::line_of;
use ntriples_lines::{Line, Tokens, read_line};

// Some lines of a document that have a triple: how many, and where the line behind them begins.
#[derive(Clone, Copy)]
pub struct Batch {
    pub count: usize,
    pub next: usize,
}

// Whether some bytes without CR and LF are a line with a triple.
fn has_triple(bytes: &[u8]) -> bool
    ensures { result ≡ has_triple (line_of (decode bytes.now)) }
{
    matches!(line_of(bytes), Line::Full(_))
}

// Notes where the lines with a triple begin, from the begin of a line on, until the file ends or there is no place left. No
// `for`: a turn goes on by a line.
pub fn gather_lines(file: &[u8], from: usize, lines: &mut [usize]) -> Batch
    requires { from ≤ length file.now }
    ensures within { result.next ≤ length file.now }
    ensures goes_on { from < length file.now → 0 < length lines.old → from < result.next }
    ensures gathered { (ts : List TextTriple) → document (drop from file.now) ≡ triples ts → Gathered file.now ts lines.new result }
{
    let mut count: usize = 0;
    let mut at = from;
    while (at < file.len()) & (count < lines.len()) {
        let begin = at;
        let end = line_end(file, begin);
        at = next_line(file, end);
        if has_triple(&file[begin..end]) {
            lines[count] = begin;
            count += 1;
        }
    }
    Batch { count, next: at }
}

// The places of the terms of a triple in the bytes of its line.
pub fn tokens_at(file: &[u8], begin: usize, end: usize) -> Tokens
    requires { IsLineOfTriple file.now begin end }
    ensures { (t : TextTriple) → LineAt file.now begin t → HaveTexts (take (end - begin) (drop begin file.now)) result t }
{
    match read_line(&file[begin..end]) {
        Line::Full(tokens) => tokens,
        _ => unreachable!(),
    }
}
