// What the program `read_ntriples` prints: the delivery of a file of N-Triples, or why there is none.
#![tactic(auto)]

ghost use Rattle.std.specs.Prelude.{◌≡◌, ◌≤◌, length};
ghost use Rattle.spec.specs.Messages.{most_bytes};
ghost use Rattle.report_reading.specs.Printing.{printed, printed_length, printed_for};

use ntriples_read::read_ntriples;
use report_input::{MOST_INPUT, write_too_long};
use report_rooms::empty_dictionary;
use report_text::write_labelled;

// How many bytes are printed: on standard output, or on standard error. No Result: both are bytes to print, on one stream or
// the other.
#[derive(Clone, Copy)]
pub enum Printed {
    Output(usize),
    Errors(usize),
}

// Reads a file of N-Triples with an empty dictionary, and writes what is printed.
pub fn respond(file: &[u8], out: &mut [u8]) -> Printed
    requires { length out.old ≡ most_bytes }
    ensures text { printed result out.new ≡ printed_for file.now }
    ensures room { printed_length result ≤ most_bytes }
{
    if MOST_INPUT < file.len() {
        return Printed::Errors(write_too_long(out));
    }
    let mut dictionary = empty_dictionary();
    match read_ntriples(file, &mut dictionary, out) {
        Ok(n) => Printed::Output(n),
        Err(n) => { Printed::Errors(write_labelled(b"refused ", n, b'\n', out, 0)) }
    }
}
