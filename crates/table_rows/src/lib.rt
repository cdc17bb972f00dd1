// Whether the first rows of a table may stand in it and ascend: rows of statements, and rows of facts.
#![tactic(auto)]

ghost use Rattle.std.specs.Prelude.{◌≡◌, ◌*◌, ◌≤◌, ◌<◌, length};
ghost use Rattle.spec.specs.Terms.{is_allowed_statement, is_allowed_fact};
ghost use Rattle.spec.specs.Order.{is_less};
ghost use Rattle.table_rows.specs.inside.Rows.{are_rows_from};

use spec::Triple;
use table::row_at;
use terms::{is_allowed_fact, is_allowed_statement};

// How many rows of facts are tested before the answer is looked at.
const BLOCK: usize = 64;

// Whether a row is less than another. No branch.
fn is_less(x: Triple, y: Triple) -> bool
    ensures { result ≡ is_less x y }
{
    (x.subject < y.subject)
        | ((x.subject == y.subject)
            & ((x.property < y.property) | ((x.property == y.property) & (x.object < y.object))))
}

// The same, up to the first words that differ. Rows of statements mostly differ in the first, and this is then faster.
fn is_before(x: Triple, y: Triple) -> bool
    ensures { result ≡ is_less x y }
{
    if x.subject != y.subject {
        return x.subject < y.subject;
    }
    if x.property != y.property {
        return x.property < y.property;
    }
    x.object < y.object
}

// Whether the first n rows are statements and ascend.
pub fn are_statement_rows(t: &[u32], n: usize) -> bool
    requires { n * 3 < length t.now }
    ensures { result ≡ are_rows_from is_allowed_statement t.now n 0 }
{
    for i in 0..n {
        let row = row_at(t, i);
        if !is_allowed_statement(row) {
            return false;
        }
        if 0 < i && !is_before(row_at(t, i - 1), row) {
            return false;
        }
    }
    true
}

// Whether the rows from row a up to row b are facts and each is above the row before it. The loop has no exit, so that the compiler can
// test several rows at once.
fn are_facts_between(t: &[u32], a: usize, b: usize) -> bool
    requires { (0 < a) × (a ≤ b) × (b * 3 < length t.now) }
    ensures { result ≡ are_rows_from is_allowed_fact t.now b a }
{
    let mut ok = true;
    for i in a..b {
        let x = row_at(t, i);
        ok = ok & (is_allowed_fact(x) & is_less(row_at(t, i - 1), x));
    }
    ok
}

// Whether the first n rows are facts and ascend: the first row, then block by block. Counted by hand: i goes a block on at a time, and
// the rows behind the last whole block come after the loop.
pub fn are_fact_rows(t: &[u32], n: usize) -> bool
    requires { n * 3 < length t.now }
    ensures { result ≡ are_rows_from is_allowed_fact t.now n 0 }
{
    if n == 0 {
        return true;
    }
    if !is_allowed_fact(row_at(t, 0)) {
        return false;
    }
    let mut i = 1;
    while i + BLOCK <= n {
        if !are_facts_between(t, i, i + BLOCK) {
            return false;
        }
        i += BLOCK;
    }
    are_facts_between(t, i, n)
}
