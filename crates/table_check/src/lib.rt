// Question 1: whether lent words are well-formed tables (document 01, "Tables").
#![tactic(auto)]

ghost use Rattle.std.specs.Prelude.{◌≡◌, ◌*◌, ◌<◌, length};
ghost use Rattle.spec.specs.Tables.{is_table, is_statement_table, is_fact_table, is_kept_table, tables, are_formed};
ghost use Rattle.table_rows.specs.inside.Rows.{are_rows_from};
ghost use Rattle.table_check.specs.inside.Allowed.{allowed_in};

use table::{MOST_FACTS, MOST_KEPT, MOST_STATEMENTS, capacity};
use table_rows::{are_fact_rows, are_statement_rows};
use table_supports::is_support_table;
use table_zeros::are_words_zero;

// Whether the first n rows ascend and may stand in a table: of statements, or of facts.
fn are_rows(t: &[u32], n: usize, statements: bool) -> bool
    requires { n * 3 < length t.now }
    ensures { result ≡ are_rows_from (allowed_in statements) t.now n 0 }
{
    if statements {
        are_statement_rows(t, n)
    } else {
        are_fact_rows(t, n)
    }
}

// Whether the words are a well-formed table of statements, or of facts, with at most so many rows. One pass over the words.
pub fn is_table(t: &[u32], statements: bool, most: usize) -> bool
    ensures { result ≡ is_table (allowed_in statements) most t.now }
{
    if t.len() == 0 {
        return false;
    }
    let n = t[0] as usize;
    if capacity(t.len(), most) < n {
        return false;
    }
    if are_rows(t, n, statements) {
        are_words_zero(t, n * 3 + 1)
    } else {
        false
    }
}

// Whether the words are a well-formed table of statements.
pub fn is_statement_table(t: &[u32]) -> bool
    ensures { result ≡ is_statement_table t.now }
{
    is_table(t, true, MOST_STATEMENTS)
}

// Whether the words are a well-formed table of facts.
pub fn is_fact_table(t: &[u32]) -> bool
    ensures { result ≡ is_fact_table t.now }
{
    is_table(t, false, MOST_FACTS)
}

// Whether the words are a well-formed table of kept facts, supports aside.
pub fn is_kept_table(t: &[u32]) -> bool
    ensures { result ≡ is_kept_table t.now }
{
    is_table(t, false, MOST_KEPT)
}

// Question 1 for an update or a delivery: whether the four tables are well formed together.
pub fn is_store(statements: &[u32], facts: &[u32], kept: &[u32], supports: &[u16]) -> bool
    ensures { result ≡ are_formed (tables statements.now facts.now kept.now supports.now) }
{
    if !is_statement_table(statements) {
        return false;
    }
    if !is_fact_table(facts) {
        return false;
    }
    if !is_kept_table(kept) {
        return false;
    }
    is_support_table(supports, facts[0] as usize, kept[0] as usize)
}
