// Reads N-Triples on standard input, and prints the delivery of their triples, or on standard error why there is none (document 02, slip 1).
#![tactic(auto)]

use report_reading::Printed;
use std::io;

fn main(rt: HostRuntime) -> io::Result<()> {
    let mut input = report_input::input_buffer();
    let n = program_input::read_full(&mut rt.stdin(), &mut input)?;
    let mut out = report_rooms::delivery_buffer();
    match report_reading::respond(&input[..n], &mut out) {
        Printed::Output(end) => rt.write_all(&out[..end]),
        Printed::Errors(end) => rt.stderr().write_all(&out[..end]),
    }
}
