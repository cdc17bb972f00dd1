// A document of N-Triples in bytes: whether its lines are right, and how many triples they have.
#![tactic(auto)]

ghost use Rattle.std.specs.Prelude.{◌≡◌};
ghost use Rattle.spec_ntriples.specs.computed.Decoded.{decode};
ghost use Rattle.spec_ntriples.specs.computed.Lines.{document};
ghost use Rattle.ntriples_lines.specs.inside.Reading.{IsLine};
ghost use Rattle.ntriples_document.specs.inside.Bytes.{line_of, count_of};

use ntriples_breaks::{line_end, next_line};
use ntriples_bytes::is_utf8;
use ntriples_lines::{Line, read_line};

// The line of some bytes without CR and LF: wrong where they are no UTF-8.
pub fn line_of(bytes: &[u8]) -> Line
    ensures { IsLine bytes.now (line_of (decode bytes.now)) result }
{
    if !is_utf8(bytes) {
        return Line::Wrong;
    }
    read_line(bytes)
}

// How many triples a document has, or nothing where it is refused: question 13.
pub fn count_triples(file: &[u8]) -> Option<usize>
    ensures { result ≡ count_of (document file.now) }
{
    let mut count: usize = 0;
    let mut from: usize = 0;
    while from < file.len() {
        let end = line_end(file, from);
        match line_of(&file[from..end]) {
            Line::Wrong => return None,
            Line::Empty => {}
            Line::Full(_) => count += 1,
        }
        from = next_line(file, end);
    }
    Some(count)
}
