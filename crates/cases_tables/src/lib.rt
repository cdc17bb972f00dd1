// A store's three tables, each written as N-Triples, for programs with stored output.
#![tactic(auto)]

use ntriples_write::{write_facts, write_kept, write_statements};
use spec::Reply;

// The tables whose rows are written.
#[derive(Clone, Copy)]
pub enum Rows {
    Statements,
    Facts,
    Kept,
}

// Writes a table with a dictionary. Nothing is promised but that it ends.
pub fn write(rows: Rows, table: &[u32], dictionary: &[u8], out: &mut [u8]) -> Reply {
    match rows {
        Rows::Statements => write_statements(table, dictionary, out),
        Rows::Facts => write_facts(table, dictionary, out),
        Rows::Kept => write_kept(table, dictionary, out),
    }
}
