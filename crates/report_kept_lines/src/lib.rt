// The lines of the kept facts that a delivery led to, as the program `kept_ntriples` prints them, and the delivery's result.
#![tactic(auto)]

ghost use Rattle.std.specs.Prelude.{◌≡◌, ◌≤◌, length, take};
ghost use Rattle.spec_writing.specs.Writing.{write_kept};
ghost use Rattle.report_text.specs.inside.Appended.{head_room};
ghost use Rattle.report_printout.specs.Printout.{printout};
ghost use Rattle.report_kept_lines.specs.Lines.{most_output, printed_written};

use ntriples_write::write_kept;
use report::write_result;
use report_printout::{Lengths, refuse};
use spec::Delivered;

// Writes the kept facts that a delivery led to, and its result.
pub fn write_delivered(
    res: Delivered,
    kept: &[u32],
    dictionary: &[u8],
    out: &mut [u8],
    errors: &mut [u8],
) -> Lengths
    requires out_len { length out.old ≡ most_output }
    requires head_room_in_bounds { head_room ≤ length errors.old }
    ensures errors_after { printout (take result.output out.new) (take result.errors errors.new) ≡ printed_written res (write_kept kept.now dictionary.now most_output) }
    ensures output_le_most_output { result.output ≤ most_output }
    ensures errors_le_head_room { result.errors ≤ head_room }
{
    match write_kept(kept, dictionary, out) {
        Ok(n) => Lengths {
            output: n,
            errors: write_result(res, errors),
        },
        Err(n) => refuse(n, errors),
    }
}
