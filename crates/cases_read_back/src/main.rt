// Runs cases about rows that are read, kept, written as N-Triples and read back (document 02, slip 3): prints each reply, and every byte of each
// delivery, which was all 7 before the call.
#![tactic(auto)]

ghost use Rattle.std.specs.Prelude.{◌≤◌, length, IfOk};

use cases_printing::print_filled;
use cases_tables::{Rows, write};
use delivery_run::deliver;
use dictionary_bytes::is_same;
use ntriples_copy::copy_bytes;
use ntriples_read::read_ntriples;
use report_store::{no_facts, no_kept, no_statements, no_supports};
use spec::Reply;
use std::io;

fn main(rt: HostRuntime) -> io::Result<()> {
    drinks_back(&rt)?;
    texts_back(&rt)
}

// Cola and its class, from a file that is not canonical: two statements, three facts, and what is kept, written and read back.
fn drinks_back(rt: &impl Print) -> io::Result<()> {
    let mut dictionary = [0u8; 200];
    let mut delivery = [7u8; 70];
    back(
        rt,
        b"a file about cola\n",
        b"# drinks\n\n<p:cola>\t<http://www.w3.org/1999/02/22-rdf-syntax-ns#\\u0074ype>\t<p:Drink>\t.  # a fact\r\n<p:Drink> <http://www.w3.org/2000/01/rdf-schema#subClassOf> _:goods.\n<p:title> <http://www.w3.org/2000/01/rdf-schema#subPropertyOf> <p:name> .\n<p:cola><p:title>\"Cola\\u0021\\u000A\"@EN.\n_:goods <p:title> \"Goods\"^^<http://www.w3.org/2001/XMLSchema#string> .",
        &mut dictionary,
        &mut delivery,
    )
}

// Texts of all kinds: what is escaped stays escaped and is the same text when it is read back.
fn texts_back(rt: &impl Print) -> io::Result<()> {
    let mut dictionary = [0u8; 300];
    let mut delivery = [7u8; 82];
    back(
        rt,
        b"a file of texts\n",
        b"<p:s> <p:p> \"\\\"\\\\\\n\\r\\t\\b\" .\n<p:s> <p:p> \"\\U0001F35E \\u00e9\"@Fr-CA .\n<p:s> <p:p> \"\" .\n<p:s> <p:p> \"1\"^^<\\u0070:t> .\n<p:s> <p:p> _:a.b .\n_:a.b <p:\\u00FC> _:\xc3\xbc .",
        &mut dictionary,
        &mut delivery,
    )
}

// Reads a file with a dictionary into a delivery, delivers it to an empty store, and writes and reads back each of its tables.
fn back(
    rt: &impl Print,
    name: &[u8],
    file: &[u8],
    dictionary: &mut [u8],
    delivery: &mut [u8],
) -> io::Result<()>
    requires { length dictionary.old ≤ 300 }
{
    rt.write_all(name)?;
    let _ = print_reading(rt, file, dictionary, delivery)?;
    kept_back(rt, delivery, dictionary)
}

// Delivers to an empty store, and writes and reads back each of its tables.
fn kept_back(rt: &impl Print, delivery: &[u8], dictionary: &mut [u8]) -> io::Result<()>
    requires { length dictionary.old ≤ 300 }
{
    let mut statements = no_statements();
    let mut facts = no_facts();
    let mut kept = no_kept();
    let mut supports = no_supports();
    let result = deliver(
        &mut statements,
        &mut facts,
        &mut kept,
        &mut supports,
        delivery,
    );
    print_applied(rt, result.applied)?;
    tables_back(rt, &statements, &facts, &kept, dictionary)
}

// Prints how many entries of a delivery were applied.
fn print_applied(rt: &impl Print, n: u32) -> io::Result<()> {
    println!(rt; "applied {n}")
}

// Writes and reads back each of the three tables.
fn tables_back(
    rt: &impl Print,
    statements: &[u32],
    facts: &[u32],
    kept: &[u32],
    dictionary: &mut [u8],
) -> io::Result<()>
    requires { length dictionary.old ≤ 300 }
{
    table_back(
        rt,
        b"its statements\n",
        Rows::Statements,
        statements,
        dictionary,
    )?;
    table_back(rt, b"its facts\n", Rows::Facts, facts, dictionary)?;
    table_back(rt, b"its kept facts\n", Rows::Kept, kept, dictionary)
}

// Writes a table with a dictionary, prints its lines, and reads them back: into room for all, and into a byte less than the delivery takes.
fn table_back(
    rt: &impl Print,
    name: &[u8],
    rows: Rows,
    table: &[u32],
    dictionary: &mut [u8],
) -> io::Result<()>
    requires { length dictionary.old ≤ 300 }
{
    let mut out = [7u8; 480];
    rt.write_all(name)?;
    let reply = write(rows, table, dictionary, &mut out);
    let end = end_of(reply, 480);
    rt.write_all(&out[..end])?;
    let size = read_back(rt, &out[..end], dictionary, 100)?;
    if 0 < size {
        read_back(rt, &out[..end], dictionary, size - 1)?;
    }
    Ok(())
}

// Reads lines with a dictionary into a delivery of so many bytes, and prints the delivery and whether the dictionary is as before. Returns how
// many bytes the delivery has.
fn read_back(rt: &impl Print, lines: &[u8], dictionary: &mut [u8], room: usize) -> io::Result<usize>
    requires dictionary_len_bound { length dictionary.old ≤ 300 }
    requires room_bound { room ≤ 100 }
    ensures { IfOk result (λ n. n ≤ 100) }
{
    let mut before = [0u8; 300];
    let mut delivery = [7u8; 100];
    let n = dictionary.len();
    copy_bytes(dictionary, 0, n, &mut before, 0);
    let reply = print_reading(rt, lines, dictionary, &mut delivery[..room])?;
    print_sameness(rt, is_same(dictionary, 0, &before, 0, n))?;
    Ok(end_of(reply, 100))
}

// Reads a file with a dictionary into a delivery, and prints the reply and the delivery.
fn print_reading(
    rt: &impl Print,
    file: &[u8],
    dictionary: &mut [u8],
    delivery: &mut [u8],
) -> io::Result<Reply> {
    let reply = read_ntriples(file, dictionary, delivery);
    print_filled(rt, reply, b"delivery", delivery)?;
    Ok(reply)
}

// Prints whether the dictionary is as before.
fn print_sameness(rt: &impl Print, same: bool) -> io::Result<()> {
    if same {
        return rt.write_all(b"  the dictionary is as before\n");
    }
    rt.write_all(b"  the dictionary has changed\n")
}

// How many bytes a reply says, at most so many.
fn end_of(reply: Reply, most: usize) -> usize
    ensures { result ≤ most }
{
    match reply {
        Ok(n) => {
            if n < most {
                return n;
            }
            most
        }
        Err(_) => 0,
    }
}
