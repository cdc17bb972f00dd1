// Where a row stands in a table, or would stand, and how a row stands to another.
#![tactic(auto)]

ghost use Rattle.std.specs.Prelude.{◌≡◌, true, ◌+◌, ◌*◌, ◌<◌, length, drop};
ghost use Rattle.spec.specs.Order.{is_ascending};
ghost use Rattle.spec.specs.Tables.{row_at, first_rows};
ghost use Rattle.table.specs.inside.Bounds.{Tells};
ghost use Rattle.table_find.specs.inside.Search.{ordering, place};

use spec::Triple;
use std::cmp::Ordering;
use table::lower_bound;

// How row i stands to x: the first words that differ decide.
pub fn compare_at(t: &[u32], i: usize, x: Triple) -> Ordering
    requires { i * 3 + 3 < length t.now }
    ensures { result ≡ ordering (row_at t.now i) x }
{
    let at = i * 3 + 1;
    match t[at].cmp(&x.subject) {
        Ordering::Equal => match t[at + 1].cmp(&x.property) {
            Ordering::Equal => t[at + 2].cmp(&x.object),
            decided => decided,
        },
        decided => decided,
    }
}

// Whether row i is x.
fn is_row(t: &[u32], i: usize, x: Triple) -> bool
    requires { i * 3 + 3 < length t.now }
    ensures { Tells result (row_at t.now i ≡ x) }
{
    let at = i * 3 + 1;
    (t[at] == x.subject) & (t[at + 1] == x.property) & (t[at + 2] == x.object)
}

// Where x stands among the first n rows, which ascend, or else the gap where it would stand.
pub fn find(t: &[u32], n: usize, x: Triple) -> Result<usize, usize>
    requires n_in_bounds { n * 3 < length t.now }
    requires t_value { is_ascending (first_rows n (drop 1 t.now)) ≡ true }
    ensures { result ≡ place x (first_rows n (drop 1 t.now)) }
{
    let i = lower_bound(t, n, 0, n, x);
    if i < n && is_row(t, i, x) {
        return Ok(i);
    }
    Err(i)
}
