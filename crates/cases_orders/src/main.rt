// Lists the three tables of the worked example in each column order: prints each reply, and every word of the output, which was all 7 before the call.
#![tactic(auto)]

ghost use Rattle.std.specs.Prelude.{◌≤◌};

use cases_printing::print_replied;
use cases_shelf::{FACTS, KEPT, STATEMENTS};
use listing::{list_facts, list_kept, list_statements};
use spec::Reply;
use std::io;

// The tables, by number.
const STATEMENT_TABLE: u32 = 0;

const FACT_TABLE: u32 = 1;

const KEPT_TABLE: u32 = 2;

// The six orders; two that there are not; and an output for each table that is one word too short.
fn main(rt: HostRuntime) -> io::Result<()> {
    list_all(&rt, 0, 0)?;
    list_all(&rt, 1, 0)?;
    list_all(&rt, 2, 0)?;
    list_all(&rt, 3, 0)?;
    list_all(&rt, 4, 0)?;
    list_all(&rt, 5, 0)?;
    list_all(&rt, 6, 0)?;
    list_all(&rt, 4294967295, 0)?;
    list_all(&rt, 0, 1)
}

// Lists the three tables in an order, into outputs with room for their rows, less so many words.
fn list_all(rt: &impl Print, order: u32, short: usize) -> io::Result<()>
    requires { short ≤ 1 }
{
    print!(rt; "order {order}\nstatements into ")?;
    list_into(rt, STATEMENT_TABLE, order, 15 - short)?;
    rt.write_all(b"facts into ")?;
    list_into(rt, FACT_TABLE, order, 6 - short)?;
    rt.write_all(b"kept facts into ")?;
    list_into(rt, KEPT_TABLE, order, 24 - short)
}

// Lists a table in an order, into an output of so many words.
fn list_into(rt: &impl Print, table: u32, order: u32, words: usize) -> io::Result<()>
    requires { words ≤ 24 }
{
    let mut out = [7u32; 24];
    print_listing(rt, table, order, &mut out[..words])
}

// Lists a table in an order, and prints the length of the output, the reply and the output.
fn print_listing(rt: &impl Print, table: u32, order: u32, out: &mut [u32]) -> io::Result<()> {
    print!(rt; "{}", out.len())?;
    rt.write_all(b" words: ")?;
    let reply = list(table, order, out);
    print_replied(rt, reply, out, 3)
}

// Lists a table in an order.
fn list(table: u32, order: u32, out: &mut [u32]) -> Reply {
    if table == STATEMENT_TABLE {
        return list_statements(&STATEMENTS, order, out);
    }
    if table == FACT_TABLE {
        return list_facts(&FACTS, order, out);
    }
    list_kept(&KEPT, order, out)
}
