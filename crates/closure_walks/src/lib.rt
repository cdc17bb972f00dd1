// The rows of a closure closed, one statement at a time: which columns each statement's subject leads to by one or more subclass or
// subproperty statements.
#![tactic(auto)]

ghost use Rattle.std.specs.Prelude.{◌≡◌, ℕ, ◌+◌, ◌*◌, ◌≤◌, ◌<◌, length};
ghost use Rattle.table.specs.inside.Bounds.{Tells};
ghost use Rattle.saturate_schema.specs.inside.Nodes.{edges, Columns};
ghost use Rattle.saturate_schema.specs.inside.Squares.{Leads, Extended, Closed};
ghost use Rattle.closure_words.specs.inside.Layout.{bit_at};
ghost use Rattle.closure_rows.specs.inside.Rows.{row_bit};

use closure_rows::{gains, unite};
use closure_words::{ROW, is_set};
use saturate_schema::{applies, column, first_statement, object_node, subject_node};

// No property of a statement: the steps are of subclasses and subproperties alone.
const NEITHER: u32 = 0;

// Room for what a row gains.
fn no_gain() -> [u32; ROW]
    ensures { length result ≡ 16 }
{
    [0u32; ROW]
}

// Whether row i is of the node s or leads to it; ss is its column, ns where it has none.
fn leads(statements: &[u32], closure: &[u32], i: usize, s: u64, ss: usize, ns: usize) -> bool
    requires { (i * 3 + 3 < length statements.now) × (length closure.now ≡ 8706) × (i < 512) × (ns ≤ 512) }
    ensures { Tells result (Leads statements.now (bit_at closure.now) s ss ns i) }
{
    if subject_node(statements, i) == s {
        return true;
    }
    if ss < ns {
        return is_set(closure, i, ss);
    }
    false
}

// Each of m rows that is of the node s or leads to it gets what gain has.
fn close_statement(
    statements: &[u32],
    m: usize,
    closure: &mut [u32],
    gain: &[u32],
    s: u64,
    ss: usize,
    ns: usize,
)
    requires { (m * 3 < length statements.now) × (length closure.old ≡ 8706) × (m ≤ 512) × (ns ≤ 512) × (length gain.now ≡ 16) }
    ensures { Extended statements.now m (bit_at closure.old) (bit_at closure.new) (row_bit gain.now) s ss ns }
{
    for i in 0..m {
        if leads(statements, closure, i, s, ss, ns) {
            unite(closure, i, gain);
        }
    }
}

// Makes m rows of 0 say which columns each statement's subject leads to.
pub fn close(statements: &[u32], m: usize, columns: &[u64], ns: usize, closure: &mut [u32])
    requires columns { Columns statements.now m columns.now ns }
    requires m_in_bounds { (m * 3 < length statements.now) × (ns ≤ length columns.now) × (length closure.old ≡ 8706) }
    requires by_index { (i c : ℕ) → i < m → c < ns → bit_at closure.old i c ≡ 0 }
    ensures { Closed statements.now m columns.now ns (bit_at closure.new) (edges statements.now 0 m) }
{
    let mut gain = no_gain();
    for j in 0..m {
        if applies(statements, j, NEITHER) {
            let s = subject_node(statements, j);
            let e = object_node(statements, j);
            let ss = column(columns, ns, s);
            let so = column(columns, ns, e);
            let go = first_statement(statements, m, e);
            gains(closure, go, m, so, &mut gain);
            close_statement(statements, m, closure, &gain, s, ss, ns);
        }
    }
}
