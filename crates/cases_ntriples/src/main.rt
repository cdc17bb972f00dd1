// Runs cases about reading N-Triples (document 02, slip 1): prints each reply, and every byte of the dictionary and of the delivery, which
// was all 7 before the call.
#![tactic(auto)]

ghost use Rattle.std.specs.Prelude.{◌≤◌, length};

use cases_lines::{find, read_words};
use cases_printing::print_read;
use ntriples_read::read_ntriples;
use std::io;

fn main(rt: HostRuntime) -> io::Result<()> {
    first_refusals(&rt)?;
    known_texts(&rt)?;
    labels(&rt)?;
    characters(&rt)?;
    bytes(&rt)?;
    numbers(&rt)?;
    sections(&rt)?;
    parts(&rt)
}

// A fact, a statement and a fact with a name: vocabulary without entries, a comment, line ends of both kinds, an escape, a tag in lower
// case. 13 of the whole file comes before 14 and 15, and 14 before 15. Three texts of 12 bytes need 72 bytes, one triple 22, and none 10.
fn first_refusals(rt: &impl Print) -> io::Result<()> {
    cases(
        rt,
        b"three lines= 140 60\n\
        <p:cola> <http://www.w3.org/1999/02/22-rdf-syntax-ns#type> <p:Drink> . # a fact\n<p:Drink> <http://www.w3.org/2000/01/rdf-schema#subClassOf> _:goods .\r\n\n<p:cola><p:name>\"Cola\\u0021\\n\"@EN.\xfe\
        a good line, then x= 5 0\n\
        <http://e/s> <http://e/p> <http://e/o> .\nx\n\xfe\
        three texts in 71 bytes= 71 22\n\
        <http://e/s> <http://e/p> <http://e/o> .\xfe\
        in 71 bytes, and no delivery= 71 0\n\
        <http://e/s> <http://e/p> <http://e/o> .\xfe\
        in 72 bytes, and a delivery of 21= 72 21\n\
        <http://e/s> <http://e/p> <http://e/o> .\xfe\
        in 72 bytes, and a delivery of 22= 72 22\n\
        <http://e/s> <http://e/p> <http://e/o> .\xfe\
        an empty file, and a delivery of 9= 0 9\n\
        \xfe\
        an empty file, and a delivery of 10= 0 10\n\
        \xfe",
    )
}

// A full dictionary still has the terms of its texts, however they are escaped. A line that stands twice is delivered twice.
fn known_texts(rt: &impl Print) -> io::Result<()> {
    given(
        rt,
        b"a full dictionary\n",
        b"<http://e/\\u006F> <http://e/p> <http://e/s> .",
        b"\x10\0\0\0\x0c\0\0\0\0\0\0\0<http://e/s>\x11\0\0\0\x0c\0\0\0\0\0\0\0<http://e/p>\x12\0\0\0\x0c\0\0\0\0\0\0\0<http://e/o>",
        22,
    )?;
    given(
        rt,
        b"a full dictionary, and a new text\n",
        b"<http://e/s> <http://e/p> \"o\" .",
        b"\x10\0\0\0\x0c\0\0\0\0\0\0\0<http://e/s>\x11\0\0\0\x0c\0\0\0\0\0\0\0<http://e/p>\x12\0\0\0\x0c\0\0\0\0\0\0\0<http://e/o>",
        22,
    )?;
    cases(
        rt,
        b"a line twice= 48 34\n\
        <http://e/s> <http://e/p> <http://e/s> .\n<http://e/s> <http://e/p> <http://e/s> .\n\xfe",
    )
}

// A label is the longest that does not end in a dot. A tag is in lower case, and xsd:string is left off, however it is escaped: two lines
// and one literal. What is barred in an IRI is barred as an escape too; a literal may have it.
fn labels(rt: &impl Print) -> io::Result<()> {
    cases(
        rt,
        b"_:b.= 63 22\n\
        <http://e/s><http://e/p>_:b.\xfe\
        _:b..= 24 22\n\
        <http://e/s><http://e/p>_:b..\xfe\
        _:a.b.= 65 22\n\
        <http://e/s><http://e/p>_:a.b.\xfe\
        one tag in two ways= 69 34\n\
        <http://e/s> <http://e/p> \"a\"@en-US .\n<http://e/s> <http://e/p> \"a\"@EN-us .\xfe\
        xsd:string or no type= 63 34\n\
        <http://e/s> <http://e/p> \"a\"^^<http://www.w3.org/2001/XMLSchema#\\u0073tring> .\n<http://e/s> <http://e/p> \"a\" .\xfe\
        \\u003E in an IRI= 24 22\n\
        <http://e/\\u003E> <http://e/p> <http://e/o> .\xfe\
        \\u0020 in an IRI= 24 22\n\
        <http://e/\\u0020> <http://e/p> <http://e/o> .\xfe\
        \\n in an IRI= 24 22\n\
        <http://e/\\n> <http://e/p> <http://e/o> .\xfe\
        \\u003E in a literal= 63 22\n\
        <http://e/s> <http://e/p> \"\\u003E\" .\xfe",
    )
}

// Surrogates and what lies above 10FFFF are no characters; U+FFFE and U+0000 are. An entry ends by its length, not at a byte 0.
fn characters(rt: &impl Print) -> io::Result<()> {
    cases(
        rt,
        b"two surrogates= 24 22\n\
        <http://e/s> <http://e/p> \"\\uD83D\\uDE00\" .\xfe\
        \\U00110000= 24 22\n\
        <http://e/s> <http://e/p> \"\\U00110000\" .\xfe\
        \\U0001F600= 66 22\n\
        <http://e/s> <http://e/p> \"\\U0001F600\" .\xfe\
        \\uFFFE= 65 22\n\
        <http://e/s> <http://e/p> \"\\uFFFE\" .\xfe\
        \\u0000, and a text behind it= 87 34\n\
        <http://e/s> <http://e/p> \"\\u0000\" .\n<http://e/s> <http://e/p> <http://e/o> .\xfe",
    )?;
    given(
        rt,
        b"the same, from the dictionary that it leaves\n",
        b"<http://e/s> <http://e/p> \"\\u0000\" .\n<http://e/s> <http://e/p> <http://e/o> .",
        b"\x10\0\0\0\x0c\0\0\0\0\0\0\0<http://e/s>\x11\0\0\0\x0c\0\0\0\0\0\0\0<http://e/p>\x01\0\0\x80\x03\0\0\0\0\0\0\0\"\0\"\x12\0\0\0\x0c\0\0\0\0\0\0\0<http://e/o>",
        34,
    )
}

// A comment is UTF-8 too: no longer form than is needed, no surrogate, nothing above 10FFFF, and nothing cut. Of the escapes only those of
// a quote, a backslash, LF and CR stay. An IRI is absolute once its escapes are resolved. The vocabulary is known by its text.
fn bytes(rt: &impl Print) -> io::Result<()> {
    cases(
        rt,
        b"E0 80 80= 24 22\n\
        # \xe0\x80\x80\n\xfe\
        ED A0 80= 24 22\n\
        # \xed\xa0\x80\n\xfe\
        C0 80= 24 22\n\
        # \xc0\x80\n\xfe\
        F4 90 80 80= 24 22\n\
        # \xf4\x90\x80\x80\n\xfe\
        E2 82, and the end of the line= 24 22\n\
        # \xe2\x82\n\xfe\
        E2 82, and the end of the file= 24 22\n\
        # \xe2\x82\xfe\
        E2 82 AC= 0 10\n\
        # \xe2\x82\xac\n\xfe\
        \\t, \\b and \\'= 65 22\n\
        <http://e/s> <http://e/p> \"\\t\\b\\'\" .\xfe\
        \\u000A= 64 22\n\
        <http://e/s> <http://e/p> \"\\u000A\" .\xfe\
        <s>= 24 22\n\
        <s> <http://e/p> <http://e/o> .\xfe\
        <a:>= 64 22\n\
        <a:> <http://e/p> <http://e/o> .\xfe\
        <\\u0068ttp://e/A>= 48 22\n\
        <\\u0068ttp://e/A> <http://e/p> <http://e/A> .\xfe\
        rdf:type with an escape, in all three places= 0 22\n\
        <http://www.w3.org/1999/02/22-rdf-syntax-ns#\\u0074ype> <http://www.w3.org/1999/02/22-rdf-syntax-n\\u0073#type> <http://www.w3.org/1999/02/22-rdf-syntax-ns#typ\\U00000065> .\xfe",
    )
}

// Dictionaries whose terms are not so numbered, or whose lengths are wrong. 1 comes before 13. Dictionaries with a text that is not
// canonical, one that stands twice, or one of the vocabulary.
fn numbers(rt: &impl Print) -> io::Result<()> {
    given(
        rt,
        b"a length of 2^64 - 5\n",
        b"x",
        b"\x10\0\0\0\xfb\xff\xff\xff\xff\xff\xff\xff<http://e/s>",
        22,
    )?;
    dictionaries(
        rt,
        b"an entry that is cut\n\
        \x10\0\0\0\x0c\0\0\xfe\
        first URI 17\n\
        \x11\0\0\0\x0c\0\0\0\0\0\0\0<http://e/s>\xfe\
        first literal 2\n\
        \x02\0\0\x80\x03\0\0\0\0\0\0\0\"a\"\xfe\
        a literal's term for a URI\n\
        \x10\0\0\x80\x0c\0\0\0\0\0\0\0<http://e/s>\xfe\
        a byte behind the zeros\n\
        \x10\0\0\0\x0c\0\0\0\0\0\0\0<http://e/s>\0\0\0\0\0\0\0\x01\xfe\
        \"a\"@EN\n\
        \x01\0\0\x80\x06\0\0\0\0\0\0\0\"a\"@EN\xfe\
        an escape that is not resolved\n\
        \x10\0\0\0\x11\0\0\0\0\0\0\0<http://e/\\u0073>\xfe\
        a text twice\n\
        \x10\0\0\0\x0c\0\0\0\0\0\0\0<http://e/s>\x11\0\0\0\x0c\0\0\0\0\0\0\0<http://e/s>\xfe\
        rdf:type\n\
        \x10\0\0\0\x31\0\0\0\0\0\0\0<http://www.w3.org/1999/02/22-rdf-syntax-ns#type>\xfe",
    )
}

// The property decides the section: a statement comes before a fact, also one that no store will take. Delivered, it is refused.
fn sections(rt: &impl Print) -> io::Result<()> {
    let mut dictionary = [0u8; 87];
    let mut delivery = [7u8; 34];
    rt.write_all(b"a fact, then a statement about a literal\n")?;
    print_reading(
        rt,
        b"<http://e/s> <http://e/p> <http://e/o> .\n<http://e/s> <http://www.w3.org/2000/01/rdf-schema#subClassOf> \"x\" .",
        &mut dictionary,
        &mut delivery,
    )?;
    let mut response = report::response_buffer();
    let end = report::respond(&delivery, &mut response);
    rt.write_all(b"  delivered: ")?;
    rt.write_all(&response[..end])
}

// A file read in two parts leaves the dictionary that the whole leaves.
fn parts(rt: &impl Print) -> io::Result<()> {
    let mut whole = [0u8; 123];
    let mut delivery = [7u8; 34];
    rt.write_all(b"a file\n")?;
    print_reading(
        rt,
        b"<http://e/s> <http://e/p> _:b .\n_:b <http://e/q> <http://e/o> .\n",
        &mut whole,
        &mut delivery,
    )?;
    let mut parted = [0u8; 123];
    rt.write_all(b"its first line\n")?;
    print_reading(
        rt,
        b"<http://e/s> <http://e/p> _:b .\n",
        &mut parted,
        &mut delivery,
    )?;
    rt.write_all(b"its second line\n")?;
    print_reading(
        rt,
        b"_:b <http://e/q> <http://e/o> .\n",
        &mut parted,
        &mut delivery,
    )
}

// Cases with a dictionary of zeros: a name, an equals sign, the sizes of dictionary and delivery, and behind the line end the file, up to a
// byte FE.
fn cases(rt: &impl Print, text: &[u8]) -> io::Result<()> {
    let mut from = 0;
    while from < text.len() {
        let sign = find(text, from, b'=');
        let line = find(text, sign, b'\n');
        let end = find(text, line, 0xfe);
        rt.write_all(&text[from..sign])?;
        case(rt, &text[sign..line], &text[line..end])?;
        if text.len() <= end {
            return Ok(());
        }
        from = end + 1;
    }
    Ok(())
}

// What such a case says behind the name: its sizes, and its file behind a line end.
fn case(rt: &impl Print, sizes: &[u8], file: &[u8]) -> io::Result<()> {
    if file.len() == 0 {
        return Ok(());
    }
    let mut words = [0u32; 2];
    read_words(sizes, &mut words);
    let behind = 1;
    fresh(
        rt,
        b"\n",
        &file[behind..],
        within(words[0], 140),
        within(words[1], 60),
    )
}

// A number, if it is not more than this.
fn within(number: u32, most: usize) -> usize
    ensures { result ≤ most }
{
    let n = number as usize;
    if n < most {
        return n;
    }
    most
}

// Cases with an empty file: a name, and behind the line end the bytes of the dictionary, up to a byte FE.
fn dictionaries(rt: &impl Print, text: &[u8]) -> io::Result<()> {
    let mut from = 0;
    while from < text.len() {
        let line = find(text, from, b'\n');
        let end = find(text, line, 0xfe);
        rt.write_all(&text[from..line])?;
        dictionary(rt, &text[line..end])?;
        if text.len() <= end {
            return Ok(());
        }
        from = end + 1;
    }
    Ok(())
}

// What such a case says behind the name: a line end, and a dictionary of at most 140 bytes.
fn dictionary(rt: &impl Print, bytes: &[u8]) -> io::Result<()> {
    if bytes.len() == 0 {
        return Ok(());
    }
    if 140 < bytes.len() {
        return Ok(());
    }
    let behind = 1;
    given(rt, b"\n", b"", &bytes[behind..], 22)
}

// A case by itself: a file read with a dictionary of zeros into a delivery, of so many bytes each.
fn fresh(rt: &impl Print, name: &[u8], file: &[u8], size: usize, room: usize) -> io::Result<()>
    requires size_bound { size ≤ 140 }
    requires room_bound { room ≤ 60 }
{
    let dictionary = [0u8; 140];
    given(rt, name, file, &dictionary[..size], room)
}

// A case by itself: a file read with a dictionary of these bytes into a delivery of so many.
fn given(rt: &impl Print, name: &[u8], file: &[u8], before: &[u8], room: usize) -> io::Result<()>
    requires before_len_bound { length before.now ≤ 140 }
    requires room_bound { room ≤ 60 }
{
    let mut dictionary = [0u8; 140];
    let mut delivery = [7u8; 60];
    let size = before.len();
    rt.write_all(name)?;
    copy(before, &mut dictionary);
    print_reading(rt, file, &mut dictionary[..size], &mut delivery[..room])
}

// Copies bytes to the front of others.
fn copy(from: &[u8], to: &mut [u8])
    requires { length from.now ≤ length to.old }
{
    to[..from.len()].copy_from_slice(from);
}

// Reads a file with a dictionary into a delivery, and prints the reply and both.
fn print_reading(
    rt: &impl Print,
    file: &[u8],
    dictionary: &mut [u8],
    delivery: &mut [u8],
) -> io::Result<()> {
    let reply = read_ntriples(file, dictionary, delivery);
    print_read(rt, reply, dictionary, delivery)
}
