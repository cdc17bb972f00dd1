// A row put among those collected in a lent output.
#![tactic(auto)]

ghost use Rattle.std.specs.Prelude.{◌≡◌, true, false, List, ◌∷◌, ℕ, ◌<◌, ◌≤◌, length};
ghost use Rattle.rows.specs.inside.Rows as sorted-rows;
ghost use Rattle.rows_distinct.specs.inside.Collected.{Collects};
ghost use Rattle.rows_distinct.specs.inside.Effects.{Within};

use rows_distinct::{Collected, add, is_last, settle};
use rows_single::is_among;

// Whether a row is added before the rows are settled, where so many more have room: while the room behind can still take a copy of the added rows, so that they can be merged with the sorted ones. The first rows are sorted only when the output is full.
fn is_spare(c: Collected, free: usize) -> bool
    ensures { result ≡ true → 0 < free }
{
    0 < free && (c.sorted == 0 || c.added < free - 1)
}

// Puts a row that is neither the last one added nor among the sorted rows, where the rows are settled: one that is there is not added, and one that has no room is one too many.
fn put_settled(out: &mut [u32], m: usize, row: &[u32], s: Collected) -> Collected
    requires m_nonzero { (0 < m) × (m ≤ length row.now) × Within m out.old s }
    requires added_value { (s.added ≡ 0) × (s.exceeded ≡ false) }
    ensures within { Within m out.new result }
    ensures collects { (R : List (List ℕ)) → Collects m R out.old s → Collects m (sorted-rows.row m 0 row.now ∷ R) out.new result }
{
    if is_among(out, m, s.sorted, row) {
        return s;
    }
    let room = out.len() / m;
    if room - (s.sorted + s.added) == 0 {
        return Collected {
            exceeded: true,
            ..s
        };
    }
    add(out, m, row, s)
}

// Puts a row that is neither the last one added nor among the sorted rows: it is added, and before that the rows are settled where few more have room.
fn put_new(out: &mut [u32], m: usize, row: &[u32], c: Collected) -> Collected
    requires m_nonzero { (0 < m) × (m ≤ length row.now) × Within m out.old c }
    requires exceeded_value { c.exceeded ≡ false }
    ensures within { Within m out.new result }
    ensures collects { (R : List (List ℕ)) → Collects m R out.old c → Collects m (sorted-rows.row m 0 row.now ∷ R) out.new result }
{
    let room = out.len() / m;
    if is_spare(c, room - (c.sorted + c.added)) {
        return add(out, m, row, c);
    }
    let s = settle(out, m, c);
    put_settled(out, m, row, s)
}

// Puts the row of the first m words of a slice: nothing happens where it is the last one added or among the sorted rows; else it is added. The rows are settled before that where few more have room. A row that is not among them then, and has no room, is one too many.
pub fn put(out: &mut [u32], m: usize, row: &[u32], c: Collected) -> Collected
    requires { (0 < m) × (m ≤ length row.now) × Within m out.old c }
    ensures within { Within m out.new result }
    ensures collects { (R : List (List ℕ)) → Collects m R out.old c → Collects m (sorted-rows.row m 0 row.now ∷ R) out.new result }
{
    if c.exceeded {
        return c;
    }
    if is_last(out, m, row, c) {
        return c;
    }
    if is_among(out, m, c.sorted, row) {
        return c;
    }
    put_new(out, m, row, c)
}
