// Reads N-Triples on standard input and delivers their triples to an empty store. Prints the kept facts as N-Triples, and on standard error
// the delivery's result or why there is none (document 02, slips 1 and 3).
#![tactic(auto)]

use std::io;

fn main(rt: HostRuntime) -> io::Result<()> {
    let mut input = report_input::input_buffer();
    let n = program_input::read_full(&mut rt.stdin(), &mut input)?;
    let mut out = report_kept_rooms::output_buffer();
    let mut errors = report_kept_rooms::errors_buffer();
    let printed = report_kept::respond(&input[..n], &mut out, &mut errors);
    rt.write_all(&out[..printed.output])?;
    rt.stderr().write_all(&errors[..printed.errors])
}
