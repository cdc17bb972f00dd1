// Prints what each of the two facts of document 01's worked example carries under its five statements: the fact, and below it
// each row, in decimal.
#![tactic(auto)]

ghost use Rattle.std.specs.Prelude.{◌*◌, ◌≤◌, length};

use spec::Triple;
use std::io;

fn main(rt: HostRuntime) -> io::Result<()> {
    let statements: [u32; 16] = [5, 16, 2, 17, 17, 2, 18, 19, 3, 20, 20, 4, 17, 20, 5, 16];
    print_carried(
        &rt,
        &statements,
        Triple {
            subject: 32,
            property: 19,
            object: 33,
        },
    )?;
    print_carried(
        &rt,
        &statements,
        Triple {
            subject: 32,
            property: 1,
            object: 16,
        },
    )
}

// Prints a fact and what it carries, or that the statements are malformed.
fn print_carried(rt: &impl Print, statements: &[u32], fact: Triple) -> io::Result<()> {
    print_row(rt, fact)?;
    if !table_check::is_statement_table(statements) {
        return rt.write_all(b"refused 1\n");
    }
    let mut rows = rdfs_carry::no_rows();
    let n = rdfs_carry::carry(statements, fact, &mut rows);
    print_rows(rt, &rows, n)
}

// Prints the first n rows of three words, indented.
fn print_rows(rt: &impl Print, rows: &[u32], n: usize) -> io::Result<()>
    requires { n * 3 ≤ length rows.now }
{
    for i in 0..n {
        let at = i * 3;
        let t = Triple {
            subject: rows[at],
            property: rows[at + 1],
            object: rows[at + 2],
        };
        rt.write_all(b"  ")?;
        print_row(rt, t)?;
    }
    Ok(())
}

// Prints a triple's three words on a line.
fn print_row(rt: &impl Print, t: Triple) -> io::Result<()> {
    print_word(rt, t.subject)?;
    rt.write_all(b" ")?;
    print_word(rt, t.property)?;
    rt.write_all(b" ")?;
    print_word(rt, t.object)?;
    rt.write_all(b"\n")
}

// Prints a word in decimal.
fn print_word(rt: &impl Print, w: u32) -> io::Result<()> {
    print!(rt; "{w}")
}
