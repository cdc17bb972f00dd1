// The closed pairs of a table of statements, compiled once into lent words: what each subject of a subclass or subproperty statement leads to
// by one or more steps. They are never held as rows, and worked out in the words themselves.
#![tactic(auto)]

ghost use Rattle.std.specs.Prelude.{◌≡◌, true, ◌*◌, ◌≤◌, ◌<◌, length};
ghost use Rattle.spec.specs.Tables.{is_statement_table};
ghost use Rattle.saturate_schema.specs.inside.Nodes.{Columns};
ghost use Rattle.closure_words.specs.inside.Closure.{IsClosure};
ghost use Rattle.statement_closure.specs.inside.Filled.{Filled};

use closure_columns::write_columns;
use closure_walks::close;
use closure_words::{BITS, ROW};
use rows_zero::zero_words;
use saturate_schema::MOST_COLUMNS;

// Room for the columns.
fn no_columns() -> [u64; MOST_COLUMNS]
    ensures { length result ≡ 512 }
{
    [0u64; MOST_COLUMNS]
}

// Fills the rows of the m statements, whatever they held: what each subject leads to by subclasses and subproperties.
fn fill_rows(statements: &[u32], m: usize, columns: &[u64], ns: usize, closure: &mut [u32])
    requires columns { Columns statements.now m columns.now ns }
    requires m_in_bounds { (m * 3 < length statements.now) × (ns ≤ length columns.now) × (length closure.old ≡ 8706) }
    ensures { Filled statements.now m columns.now ns closure.new }
{
    zero_words(closure, BITS, BITS + m * ROW);
    close(statements, m, columns, ns, closure);
}

// Compiles the closed pairs of a table of statements into lent words.
pub fn close_statements(statements: &[u32], closure: &mut [u32])
    requires statements_value { is_statement_table statements.now ≡ true }
    requires closure_len { length closure.old ≡ 8706 }
    ensures { IsClosure statements.now closure.new }
{
    let m = statements[0] as usize;
    let mut columns = no_columns();
    let ns = saturate_columns::columns(statements, m, &mut columns);
    let nc = saturate_columns::classes(&columns, ns);
    fill_rows(statements, m, &columns, ns, closure);
    write_columns(&columns, ns, nc, closure);
}
