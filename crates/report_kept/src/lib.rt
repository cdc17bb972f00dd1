// What the program `kept_ntriples` prints: the kept facts of a file of N-Triples, as N-Triples, or why there are none.
#![tactic(auto)]

ghost use Rattle.std.specs.Prelude.{◌≡◌, ◌≤◌, length, take};
ghost use Rattle.spec.specs.Deliveries.{deliver};
ghost use Rattle.report_text.specs.inside.Appended.{head_room};
ghost use Rattle.report_printout.specs.Printout.{printout};
ghost use Rattle.report_kept_lines.specs.Lines.{most_output};
ghost use Rattle.report_kept.specs.Printing.{empty_store, printed_result, printed_from};

use delivery_run::deliver;
use ntriples_read::read_ntriples;
use report_input::{MOST_INPUT, write_too_long};
use report_kept_lines::write_delivered;
use report_kept_rooms::{no_facts, no_kept, no_supports};
use report_printout::{Lengths, refuse};
use report_rooms::{delivery_buffer, empty_dictionary};
use report_store::no_statements;

// Delivers bytes to the empty store, and writes what is printed of that with a dictionary.
fn print_delivery(dictionary: &[u8], delivery: &[u8], out: &mut [u8], errors: &mut [u8]) -> Lengths
    requires out_len { length out.old ≡ most_output }
    requires head_room_in_bounds { head_room ≤ length errors.old }
    ensures errors_after { printout (take result.output out.new) (take result.errors errors.new) ≡ printed_result dictionary.now (deliver empty_store delivery.now) }
    ensures output_le_most_output { result.output ≤ most_output }
    ensures errors_le_head_room { result.errors ≤ head_room }
{
    let mut statements = no_statements();
    let mut facts = no_facts();
    let mut kept = no_kept();
    let mut supports = no_supports();
    let result = deliver(
        &mut statements,
        &mut facts,
        &mut kept,
        &mut supports,
        delivery,
    );
    if result.refusal != 0 {
        return refuse(result.refusal, errors);
    }
    write_delivered(result, &kept, dictionary, out, errors)
}

// Reads a file of N-Triples with an empty dictionary, delivers it to an empty store, and writes what is printed.
pub fn respond(file: &[u8], out: &mut [u8], errors: &mut [u8]) -> Lengths
    requires out_len { length out.old ≡ most_output }
    requires head_room_in_bounds { head_room ≤ length errors.old }
    ensures text { printout (take result.output out.new) (take result.errors errors.new) ≡ printed_from file.now }
    ensures output { result.output ≤ most_output }
    ensures errors { result.errors ≤ head_room }
{
    if MOST_INPUT < file.len() {
        return Lengths {
            output: 0,
            errors: write_too_long(errors),
        };
    }
    let mut dictionary = empty_dictionary();
    let mut delivery = delivery_buffer();
    match read_ntriples(file, &mut dictionary, &mut delivery) {
        Ok(n) => print_delivery(&dictionary, &delivery[..n], out, errors),
        Err(n) => refuse(n, errors),
    }
}
