// What the programs of cases print of a call: its reply, and every word or byte of what was lent to it for output.
#![tactic(auto)]

ghost use Rattle.std.specs.Prelude.{◌<◌};

use spec::Reply;
use std::io;

// Prints a reply, and below it the words of the output, rows of so many words on a line each. Nothing is promised but that it ends.
pub fn print_replied(rt: &impl Print, reply: Reply, words: &[u32], width: usize) -> io::Result<()>
    requires { 0 < width }
{
    print_reply(rt, b"rows ", reply)?;
    print_words(rt, words, width)
}

// Prints how much was given, behind what it is called, or the number that refused, and no line end.
fn print_reply(rt: &impl Print, given: &[u8], reply: Reply) -> io::Result<()> {
    match reply {
        Ok(n) => {
            rt.write_all(given)?;
            print!(rt; "{n}")
        }
        Err(n) => print!(rt; "refused {n}"),
    }
}

// Prints words, each row of them on a line of its own, and a line end.
fn print_words(rt: &impl Print, words: &[u32], width: usize) -> io::Result<()>
    requires { 0 < width }
{
    for (i, word) in words.iter().enumerate() {
        print_gap(rt, i % width)?;
        print_word(rt, *word)?;
    }
    rt.write_all(b"\n")
}

// Prints what stands before a word in a column: a line end before the first, else a space.
fn print_gap(rt: &impl Print, column: usize) -> io::Result<()> {
    if column == 0 {
        return rt.write_all(b"\n    ");
    }
    rt.write_all(b" ")
}

// Prints a word in decimal.
fn print_word(rt: &impl Print, word: u32) -> io::Result<()> {
    print!(rt; "{word}")
}

// Prints the reply of a reading, and below it the bytes of the dictionary and of the delivery. Nothing is promised but that it ends.
pub fn print_read(
    rt: &impl Print,
    reply: Reply,
    dictionary: &[u8],
    delivery: &[u8],
) -> io::Result<()> {
    print_filled(rt, reply, b"dictionary", dictionary)?;
    rt.write_all(b"  delivery")?;
    print_bytes(rt, delivery)
}

// Prints a reply, and below it the bytes that have this name.
pub fn print_filled(rt: &impl Print, reply: Reply, name: &[u8], bytes: &[u8]) -> io::Result<()> {
    print_reply(rt, b"length ", reply)?;
    rt.write_all(b"\n  ")?;
    rt.write_all(name)?;
    print_bytes(rt, bytes)
}

// Prints bytes in hexadecimal, 32 on a line, and a line end.
fn print_bytes(rt: &impl Print, bytes: &[u8]) -> io::Result<()> {
    for (i, byte) in bytes.iter().enumerate() {
        print_gap(rt, i % 32)?;
        print_byte(rt, *byte)?;
    }
    rt.write_all(b"\n")
}

// Prints a byte in hexadecimal.
fn print_byte(rt: &impl Print, byte: u8) -> io::Result<()> {
    print!(rt; "{byte:02x}")
}
