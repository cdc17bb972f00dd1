// Rows collected in a lent output: one more added, and all settled.
#![tactic(auto)]

ghost use Rattle.std.specs.Prelude.{◌≡◌, true, ℕ, ◌+◌, ◌*◌, ◌<◌, ◌≤◌, length, replicate};
ghost use mathlib.Core.List.{List, [], ◌∷◌, Memᴰ};
ghost use Rattle.rows.specs.inside.Rows as sorted-rows;
ghost use Rattle.rows_distinct.specs.inside.Collected.{Collects};
ghost use Rattle.rows_distinct.specs.inside.Effects.{Within};

use rows_single::{is_same, write_row};
use rows_sort::merge_distinct;

// How many sorted rows stand in front, how many added ones behind them, and whether more distinct rows were put than fit.
#[derive(Clone, Copy)]
pub struct Collected {
    pub sorted: usize,
    pub added: usize,
    pub exceeded: bool,
}

// Whether a row is the last one added.
pub fn is_last(out: &[u32], m: usize, row: &[u32], c: Collected) -> bool
    requires { (0 < m) × (m ≤ length row.now) × Within m out.now c }
    ensures { result ≡ true → Memᴰ (sorted-rows.row m 0 row.now) (sorted-rows.rows m out.now 0 (c.sorted + c.added)) }
{
    if c.added == 0 {
        return false;
    }
    let last = c.sorted + c.added - 1;
    is_same(out, last * m, row, m)
}

// Adds a row behind the others, where there is room for one more.
pub fn add(out: &mut [u32], m: usize, row: &[u32], c: Collected) -> Collected
    requires { (0 < m) × (m ≤ length row.now) × ((c.sorted + c.added) * m + m ≤ length out.old) }
    ensures within { Within m out.new result }
    ensures collects { (R : List (List ℕ)) → Collects m R out.old c → Collects m (sorted-rows.row m 0 row.now ∷ R) out.new result }
{
    write_row(out, m, c.sorted + c.added, row);
    Collected {
        added: c.added + 1,
        ..c
    }
}

// Sorts all rows and drops repeats.
pub fn settle(out: &mut [u32], m: usize, c: Collected) -> Collected
    requires { (0 < m) × Within m out.old c }
    ensures within { Within m out.new result }
    ensures settled { (result.added ≡ 0) × (result.exceeded ≡ c.exceeded) }
    ensures collects { (R : List (List ℕ)) → Collects m R out.old c → Collects m R out.new result }
{
    if c.added == 0 {
        return c;
    }
    let sorted = merge_distinct(out, m, c.sorted, c.added);
    Collected {
        sorted,
        added: 0,
        ..c
    }
}

// Nothing collected yet, in an output of zeros.
pub fn start() -> Collected
    ensures { (m len : ℕ) → Collects m [] (replicate len 0) result }
{
    Collected {
        sorted: 0,
        added: 0,
        exceeded: false,
    }
}
