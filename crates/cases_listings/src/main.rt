// Runs cases about listings: prints each reply, and every word of the output, which was all 7 before the call.
#![tactic(auto)]

ghost use Rattle.std.specs.Prelude.{◌≤◌};

use cases_printing::print_replied;
use cases_shelf::STATEMENTS;
use listing::{list_facts, list_kept, list_statements};
use std::io;

// Five facts, one about a literal: no two of the six orders have the rows in one sequence.
const FACTS: [u32; 16] = [
    5, 32, 19, 34, 32, 20, 33, 33, 1, 34, 34, 19, 33, 34, 20, 0x80000001,
];

// Facts that do not ascend.
const DESCENDING: [u32; 7] = [2, 33, 1, 34, 32, 19, 34];

// Kept facts of the worked example, and room for one more.
const KEPT: [u32; 16] = [4, 32, 1, 16, 32, 19, 33, 32, 20, 33, 33, 1, 16, 0, 0, 0];

fn main(rt: HostRuntime) -> io::Result<()> {
    orders(&rt)?;
    refused(&rt)?;
    other_tables(&rt)
}

// The facts in all six orders, into room for them and two words more.
fn orders(rt: &impl Print) -> io::Result<()> {
    case(rt, b"subject property object\n", &FACTS, 0, 17)?;
    case(rt, b"subject object property\n", &FACTS, 1, 17)?;
    case(rt, b"property subject object\n", &FACTS, 2, 17)?;
    case(rt, b"property object subject\n", &FACTS, 3, 17)?;
    case(rt, b"object subject property\n", &FACTS, 4, 17)?;
    case(rt, b"object property subject\n", &FACTS, 5, 17)
}

// There is no order 6. Five rows fit 15 words and not 14. Question 1 comes before 12, and 12 before 8.
fn refused(rt: &impl Print) -> io::Result<()> {
    case(rt, b"order 6\n", &FACTS, 6, 17)?;
    case(rt, b"exactly enough\n", &FACTS, 0, 15)?;
    case(rt, b"one word short\n", &FACTS, 0, 14)?;
    case(rt, b"descending\n", &DESCENDING, 0, 6)?;
    case(rt, b"descending, and order 6\n", &DESCENDING, 6, 6)?;
    case(rt, b"order 6, and one word short\n", &FACTS, 6, 14)
}

// Statements and kept facts are listed alike.
fn other_tables(rt: &impl Print) -> io::Result<()> {
    let mut out = [7u32; 15];
    let statements = list_statements(&STATEMENTS, 5, &mut out);
    rt.write_all(b"statements, object property subject\n")?;
    print_replied(rt, statements, &out, 3)?;
    let mut rows = [7u32; 15];
    let kept = list_kept(&KEPT, 2, &mut rows);
    rt.write_all(b"kept facts, property subject object\n")?;
    print_replied(rt, kept, &rows, 3)
}

// A case by itself: facts listed in an order, into an output of so many words.
fn case(rt: &impl Print, name: &[u8], facts: &[u32], order: u32, words: usize) -> io::Result<()>
    requires { words ≤ 17 }
{
    let mut out = [7u32; 17];
    rt.write_all(name)?;
    print_listing(rt, facts, order, &mut out[..words])
}

// Lists facts in an order, and prints the reply and the output.
fn print_listing(rt: &impl Print, facts: &[u32], order: u32, out: &mut [u32]) -> io::Result<()> {
    let reply = list_facts(facts, order, out);
    print_replied(rt, reply, out, 3)
}
