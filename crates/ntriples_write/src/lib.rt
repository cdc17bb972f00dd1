// Rows of a table written as canonical N-Triples, with the texts of a dictionary.
#![tactic(auto)]

ghost use Rattle.std.specs.Prelude.{◌≡◌, true, length, replicate, Err};
ghost use Rattle.spec.specs.inside.Laid.{Laid};
ghost use Rattle.spec_ntriples.specs.Dictionary.{entries, is_dictionary};
ghost use Rattle.spec_writing.specs.Writing.{written, write_rows, write_statements, write_facts, write_kept};
ghost use Rattle.dictionary_bytes.specs.inside.Entries.{FilledBy};

use dictionary_bytes::Filled;
use dictionary_check::check_dictionary;
use dictionary_places::index_places;
use dictionary_ranks::no_places;
use ntriples_have_texts::have_texts;
use ntriples_rows::write_rows;
use ntriples_zero::clear;
use spec::Reply;
use table_check::{is_fact_table, is_kept_table, is_statement_table};

// Refuses by a number: the whole output becomes zero.
fn refuse(number: u32, out: &mut [u8]) -> Reply
    ensures { written result out.new ≡ written (Err number) (replicate (length out.old) 0) }
{
    clear(out);
    Err(number)
}

// Writes the rows of a well-formed table with a well-formed dictionary, which is filled so far: question 16, then question 8 with the lines.
fn write_lines(table: &[u32], dictionary: &[u8], f: Filled, out: &mut [u8]) -> Reply
    requires laid { Laid table.now }
    requires dictionary_value { (is_dictionary dictionary.now ≡ true) × FilledBy dictionary.now f (entries dictionary.now) }
    ensures { written result out.new ≡ write_rows true table.now dictionary.now (length out.old) }
{
    if !have_texts(table, f) {
        return refuse(16, out);
    }
    let mut places = no_places();
    index_places(dictionary, f, &mut places);
    write_rows(table, dictionary, f, &places, out)
}

// Writes the rows of a table that is well formed or not: questions 1, 16 and 8, in this order, and the lines. Refused, the output is zero.
fn write_table(formed: bool, table: &[u32], dictionary: &[u8], out: &mut [u8]) -> Reply
    requires { formed ≡ true → Laid table.now }
    ensures { written result out.new ≡ write_rows formed table.now dictionary.now (length out.old) }
{
    if !formed {
        return refuse(1, out);
    }
    match check_dictionary(dictionary) {
        None => refuse(1, out),
        Some(f) => write_lines(table, dictionary, f, out),
    }
}

// Writes the statements.
pub fn write_statements(table: &[u32], dictionary: &[u8], out: &mut [u8]) -> Reply
    ensures { written result out.new ≡ write_statements table.now dictionary.now (length out.old) }
{
    write_table(is_statement_table(table), table, dictionary, out)
}

// Writes the facts.
pub fn write_facts(table: &[u32], dictionary: &[u8], out: &mut [u8]) -> Reply
    ensures { written result out.new ≡ write_facts table.now dictionary.now (length out.old) }
{
    write_table(is_fact_table(table), table, dictionary, out)
}

// Writes the kept facts, without their supports.
pub fn write_kept(table: &[u32], dictionary: &[u8], out: &mut [u8]) -> Reply
    ensures { written result out.new ≡ write_kept table.now dictionary.now (length out.old) }
{
    write_table(is_kept_table(table), table, dictionary, out)
}
