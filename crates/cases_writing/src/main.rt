// Runs cases about rows written as N-Triples (document 02, slip 3): prints each reply, and every byte of the output, which was all 7 before the
// call.
#![tactic(auto)]

ghost use Rattle.std.specs.Prelude.{◌≤◌};

use cases_lines::{find, read_words};
use cases_printing::print_filled;
use cases_tables::{Rows, write};
use std::io;

fn main(rt: HostRuntime) -> io::Result<()> {
    example(&rt)?;
    malformed_tables(&rt)?;
    malformed_dictionaries(&rt)?;
    no_texts(&rt)?;
    vocabulary(&rt)?;
    texts(&rt)
}

// Two lines of 104 bytes. No rows give no bytes, from any dictionary. Supports are not asked: a table of kept facts is written as one of facts.
fn example(rt: &impl Print) -> io::Result<()> {
    drinks(
        rt,
        b"104 bytes into 110: 1 110 2 16 1 17 16 18 l1\n\
        into 105: 1 105 2 16 1 17 16 18 l1\n\
        into 104: 1 104 2 16 1 17 16 18 l1\n\
        into 103: 1 103 2 16 1 17 16 18 l1\n\
        into no byte: 1 0 2 16 1 17 16 18 l1\n",
    )?;
    cases(
        rt,
        b"no row into no byte: 3 0 0\n\
        no row into 5 bytes: 3 5 0\n",
        b"",
    )?;
    cases(rt, b"no row, and room for one: 3 5 0 0 0 0\n", b"\0\0")?;
    drinks(rt, b"kept facts: 2 110 2 16 1 17 16 18 l1\n")
}

// 1 comes before 16 and 8: no row here has texts or room. A word of zero behind the rows that begins no row is no fault: 16, as for a fact or a statement
// in its own table.
fn malformed_tables(rt: &impl Print) -> io::Result<()> {
    cases(
        rt,
        b"no word: 3 5\n\
        a count of 1, and no row: 3 5 1\n\
        a word behind no row: 3 5 0 0 0 1\n\
        a row and a word: 3 5 1 16 17 18 0\n\
        rows that descend: 3 5 2 17 1 16 16 1 16\n\
        a fact: 3 5 1 20 21 22\n\
        a statement: 3 5 1 20 2 22\n\
        a statement about the vocabulary: 3 5 1 20 2 1\n\
        a literal as subject: 3 5 1 l1 1 16\n",
        b"",
    )
}

// A dictionary whose first URI is 17, one whose entry is cut, and one with a byte behind the zeros.
fn malformed_dictionaries(rt: &impl Print) -> io::Result<()> {
    cases(
        rt,
        b"first URI 17, and no row: 3 5 0\n",
        b"\x11\0\0\0\x05\0\0\0\0\0\0\0<p:s>",
    )?;
    cases(
        rt,
        b"an entry that is cut, and no row: 3 0 0\n",
        b"\x10\0\0\0\x0c\0\0",
    )?;
    cases(
        rt,
        b"a byte behind zeros, and no row: 3 5 0\n",
        b"\0\0\0\0\0\0\0\0\0\0\0\0\0\x01",
    )?;
    cases(
        rt,
        b"first URI 17, and a fact without texts or room: 1 0 1 16 17 6\n",
        b"\x11\0\0\0\x05\0\0\0\0\0\0\0<p:s>",
    )
}

// 16 comes before 8: a term without text, as subject, property and object; in the first row, and in the last; in each table; and URIs 6 to 15,
// one above the last of each kind, and the greatest.
fn no_texts(rt: &impl Print) -> io::Result<()> {
    drinks(
        rt,
        b"16 17 6 into no byte: 1 0 1 16 17 6\n\
        16 17 6 into 30 bytes: 1 30 1 16 17 6\n\
        16 6 17: 1 0 1 16 6 17\n\
        6 17 16: 1 0 1 6 17 16\n\
        16 17 18 into no byte: 1 0 1 16 17 18\n\
        6 1 16, then 16 1 17: 1 0 2 6 1 16 16 1 17\n\
        16 1 17, then 16 1 19: 1 0 2 16 1 17 16 1 19\n\
        16 1 17, then 16 19 17: 1 0 2 16 1 17 16 19 17\n\
        16 1 17, then 19 1 17: 1 0 2 16 1 17 19 1 17\n\
        statement 16 2 19: 0 0 1 16 2 19\n\
        kept fact 16 1 19: 2 0 1 16 1 19\n\
        URI 15: 1 0 1 16 1 15\n\
        URI 19: 1 0 1 16 1 19\n\
        blank 1: 1 0 1 16 1 b1\n\
        blank 2: 1 0 1 16 1 b2\n\
        blank 2 as subject: 1 0 1 b2 1 16\n\
        literal 2: 1 0 1 16 1 l2\n\
        URI 1073741823: 1 0 1 16 1 1073741823\n\
        literal 1073741823: 1 0 1 16 1 l1073741823\n",
    )?;
    cases(
        rt,
        b"URI 16 of a dictionary without entries: 1 0 1 16 1 16\n",
        b"\0\0\0",
    )
}

// The vocabulary has texts in every dictionary. The four properties of statements.
fn vocabulary(rt: &impl Print) -> io::Result<()> {
    cases(
        rt,
        b"1 1 2, 3 1 4 and 5 1 5: 1 480 3 1 1 2 3 1 4 5 1 5\n",
        b"",
    )?;
    drinks(
        rt,
        b"16 2 17, 16 3 18, 16 4 17 and 16 5 blank 1: 0 300 4 16 2 17 16 3 18 16 4 17 16 5 b1\n",
    )
}

// Literals: of no character, of U+0000, with the four escapes, a tab as it is, a character of four bytes, a tag, and a type. Numbers are not
// positions: two URIs, three blanks and two literals, in turn.
fn texts(rt: &impl Print) -> io::Result<()> {
    cases(
        rt,
        b"seven literals: 1 200 7 16 17 l1 16 17 l2 16 17 l3 16 17 l4 16 17 l5 16 17 l6 16 17 l7\n",
        b"\x10\0\0\0\x05\0\0\0\0\0\0\0<p:s>\x11\0\0\0\x05\0\0\0\0\0\0\0<p:p>\x01\0\0\x80\x02\0\0\0\0\0\0\0\"\"\x02\0\0\x80\x03\0\0\0\0\0\0\0\"\0\"\x03\0\0\x80\x0a\0\0\0\0\0\0\0\"\\\"\\\\\\n\\r\"\x04\0\0\x80\x05\0\0\0\0\0\0\0\"a\tb\"\x05\0\0\x80\x06\0\0\0\0\0\0\0\"\xf0\x9f\x8d\x9e\"\x06\0\0\x80\x0c\0\0\0\0\0\0\0\"Brot\"@de-at\x07\0\0\x80\x0a\0\0\0\0\0\0\0\"1\"^^<p:t>",
    )?;
    cases(
        rt,
        b"kinds in turn: 2 130 5 16 17 17 16 17 l1 16 17 l2 b1 16 b3 b2 17 b1\n",
        b"\x01\0\0\x80\x05\0\0\0\0\0\0\0\"one\"\x01\0\0\x40\x05\0\0\0\0\0\0\0_:b.1\x10\0\0\0\x05\0\0\0\0\0\0\0<p:a>\x02\0\0\x80\x05\0\0\0\0\0\0\0\"two\"\x02\0\0\x40\x05\0\0\0\0\0\0\0_:\xc3\xbc-\x11\0\0\0\x05\0\0\0\0\0\0\0<p:b>\x03\0\0\x40\x03\0\0\0\0\0\0\0_:3",
    )
}

// Cases with the dictionary of drinks, whose terms are URIs 16 to 18, blank 1 and literal 1.
fn drinks(rt: &impl Print, lines: &[u8]) -> io::Result<()> {
    cases(
        rt,
        lines,
        b"\x10\0\0\0\x08\0\0\0\0\0\0\0<p:cola>\x11\0\0\0\x09\0\0\0\0\0\0\0<p:Drink>\x01\0\0\x40\x07\0\0\0\0\0\0\0_:goods\x12\0\0\0\x08\0\0\0\0\0\0\0<p:name>\x01\0\0\x80\x0c\0\0\0\0\0\0\0\"Cola!\\n\"@en",
    )
}

// Cases with the same dictionary, on a line each: a name, a colon, the number of the table, how many bytes of output are lent, and the words
// of the table. Table 0 has statements, 1 facts and 2 kept facts; 3 is the same words as each of the three.
fn cases(rt: &impl Print, lines: &[u8], dictionary: &[u8]) -> io::Result<()> {
    let mut from = 0;
    while from < lines.len() {
        let colon = find(lines, from, b':');
        let end = find(lines, colon, b'\n');
        rt.write_all(&lines[from..colon])?;
        case(rt, &lines[colon..end], dictionary)?;
        if lines.len() <= end {
            return Ok(());
        }
        from = end + 1;
    }
    Ok(())
}

// A case by itself: what its line says behind the name.
fn case(rt: &impl Print, line: &[u8], dictionary: &[u8]) -> io::Result<()> {
    let mut words = [0u32; 24];
    let n = read_words(line, &mut words);
    numbered(rt, &words[..n], dictionary)
}

// Writes a table, before whose words come its number and the number of bytes.
fn numbered(rt: &impl Print, words: &[u32], dictionary: &[u8]) -> io::Result<()> {
    if words.len() < 2 {
        return Ok(());
    }
    let behind = 2;
    table(rt, words[0], within(words[1]), &words[behind..], dictionary)
}

// So many bytes, if 480 are enough.
fn within(bytes: u32) -> usize
    ensures { result ≤ 480 }
{
    if bytes < 480 {
        return bytes as usize;
    }
    480
}

// The table of this number, or each of the three.
fn table(
    rt: &impl Print,
    number: u32,
    room: usize,
    words: &[u32],
    dictionary: &[u8],
) -> io::Result<()>
    requires { room ≤ 480 }
{
    match number {
        0 => print_case(rt, b"\n", Rows::Statements, words, dictionary, room),
        1 => print_case(rt, b"\n", Rows::Facts, words, dictionary, room),
        2 => print_case(rt, b"\n", Rows::Kept, words, dictionary, room),
        _ => each(rt, words, dictionary, room),
    }
}

// The same words as each of the three tables.
fn each(rt: &impl Print, words: &[u32], dictionary: &[u8], room: usize) -> io::Result<()>
    requires { room ≤ 480 }
{
    print_case(
        rt,
        b"\n  as statements: ",
        Rows::Statements,
        words,
        dictionary,
        room,
    )?;
    print_case(rt, b"  as facts: ", Rows::Facts, words, dictionary, room)?;
    print_case(
        rt,
        b"  as kept facts: ",
        Rows::Kept,
        words,
        dictionary,
        room,
    )
}

// Writes a table with a dictionary into so many bytes, and prints this heading, the reply and the output.
fn print_case(
    rt: &impl Print,
    heading: &[u8],
    rows: Rows,
    words: &[u32],
    dictionary: &[u8],
    room: usize,
) -> io::Result<()>
    requires { room ≤ 480 }
{
    let mut out = [7u8; 480];
    rt.write_all(heading)?;
    print_writing(rt, rows, words, dictionary, &mut out[..room])
}

// Writes a table with a dictionary, and prints the reply and the output.
fn print_writing(
    rt: &impl Print,
    rows: Rows,
    table: &[u32],
    dictionary: &[u8],
    out: &mut [u8],
) -> io::Result<()> {
    let reply = write(rows, table, dictionary, out);
    print_filled(rt, reply, b"output", out)
}
