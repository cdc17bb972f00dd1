// Supports of kept facts raised in place, missing rows entering with 1 (document 01, "Tables").
#![tactic(auto)]

ghost use Rattle.std.specs.Prelude.{◌≡◌, true, ◌+◌, ◌*◌, ◌<◌, length, drop};
ghost use Rattle.spec.specs.Order.{is_ascending};
ghost use Rattle.spec.specs.Tables.{first_rows, rows, kept_of};
ghost use Rattle.table_find.specs.inside.Search.{place};
ghost use Rattle.spec.specs.Saturation.{Kept, kept_rows, raise_all};
ghost use Rattle.update_kept.specs.inside.Entries.{Sought, Holding};
ghost use Rattle.update_raise.specs.inside.Raising.{absence, last_ordering, Raisable};

use spec::Triple;
use std::cmp::Ordering;
use table::row_from;
use table_change::put_entry;

// 1 where x is not among the first n rows, else 0.
fn absent(t: &[u32], n: usize, x: Triple) -> usize
    requires n_in_bounds { n * 3 < length t.now }
    requires t_value { is_ascending (first_rows n (drop 1 t.now)) ≡ true }
    ensures { result ≡ absence (place x (first_rows n (drop 1 t.now))) }
{
    match table_find::find(t, n, x) {
        Ok(_) => 0,
        Err(_) => 1,
    }
}

// How many of c ascending rows are not kept: the number of rows that raising them adds. A binary search for each.
pub fn count_missing(kept: &[u32], list: &[u32], c: usize) -> usize
    requires { Sought kept.now list.now c }
    ensures { (k : Kept) → kept_rows k ≡ rows kept.now → result + length k ≡ length (raise_all (first_rows c list.now) k) }
{
    let n = kept[0] as usize;
    let mut missing = 0;
    for j in 0..c {
        missing += absent(kept, n, row_from(list, j));
    }
    missing
}

// How the row before place i stands to x. Where there is none, it is less.
fn compare_last(t: &[u32], i: usize, x: Triple) -> Ordering
    requires { i * 3 < length t.now }
    ensures { result ≡ last_ordering i t.now x }
{
    if i == 0 {
        return Ordering::Less;
    }
    table_find::compare_at(t, i - 1, x)
}

// Raises the support of each of c ascending rows by 1; those missing, of which there are so many, enter with 1. One pass from the
// last row to the first: what is moved goes up, so that nothing is overwritten before it is read. No `for`: how the rows compare says which of the two lists goes on.
pub fn raise_all(kept: &mut [u32], supports: &mut [u16], list: &[u32], c: usize, missing: usize)
    requires { Raisable kept.old supports.old list.now c missing }
    ensures { Holding (raise_all (first_rows c list.now) (kept_of kept.old supports.old)) kept.old supports.old kept.new supports.new }
{
    let n = kept[0] as usize;
    let after = n + missing;
    let mut i = n;
    let mut j = c;
    let mut k = after;
    while 0 < j {
        let x = row_from(list, j - 1);
        match compare_last(kept, i, x) {
            Ordering::Greater => {
                i -= 1;
                k -= 1;
                let row = table::row_at(kept, i);
                let support = supports[i];
                put_entry(kept, supports, k, row, support);
            }
            Ordering::Equal => {
                i -= 1;
                j -= 1;
                k -= 1;
                let support = supports[i] + 1;
                put_entry(kept, supports, k, x, support);
            }
            Ordering::Less => {
                j -= 1;
                k -= 1;
                put_entry(kept, supports, k, x, 1);
            }
        }
    }
    kept[0] = after as u32;
}
