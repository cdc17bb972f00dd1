// Supports of kept facts lowered in place, a row at 0 going (document 01, "Tables").
#![tactic(auto)]

ghost use Rattle.std.specs.Prelude.{◌++◌, ◌*◌, ◌≤◌, ◌<◌, length, take, drop};
ghost use Rattle.spec.specs.Tables.{first_rows, rows, kept_of};
ghost use Rattle.spec.specs.Saturation.{lower_all};
ghost use Rattle.update_kept.specs.inside.Entries.{entries, Room, Sought, Holding};
ghost use Rattle.update_lower.specs.inside.Lowering.{Lowerable, Passed, Gapped, Cleared};

use rows_zero::{zero_supports, zero_words};
use std::cmp::Ordering;
use table::row_from;
use table_change::put_entry;

// Where lowering stands: the rows before place write are done, and those from place read on stand as they did.
#[derive(Clone, Copy)]
pub struct Moved {
    pub read: usize,
    pub write: usize,
}

// A place before which every row is less than each of c ascending rows.
fn start_place(kept: &[u32], list: &[u32], c: usize) -> usize
    requires { Sought kept.now list.now c }
    ensures { Passed result kept.now list.now }
{
    if c == 0 {
        return 0;
    }
    let n = kept[0] as usize;
    table::lower_bound(kept, n, 0, n, row_from(list, 0))
}

// Lowers the support of each of c ascending rows that is kept by 1, from place from on; a row at 0 goes. What is left before place
// write is done, and the rows from place read on stay as they are, once no row is left to lower. No `for`: how the
// rows compare says which of the two lists goes on.
fn lower_rows(kept: &mut [u32], supports: &mut [u16], list: &[u32], c: usize, from: usize) -> Moved
    requires lowerable { Lowerable kept.old supports.old list.now c }
    requires passed { Passed from kept.old list.now }
    ensures { Gapped (lower_all (first_rows c list.now) (kept_of kept.old supports.old)) (length (rows kept.old)) result.read result.write kept.old supports.old kept.new supports.new }
{
    let n = kept[0] as usize;
    let mut i = from;
    let mut j = 0;
    let mut k = from;
    while j < c {
        if n <= i {
            return Moved { read: i, write: k };
        }
        let x = row_from(list, j);
        match table_find::compare_at(kept, i, x) {
            Ordering::Less => {
                let row = table::row_at(kept, i);
                let support = supports[i];
                put_entry(kept, supports, k, row, support);
                i += 1;
                k += 1;
            }
            Ordering::Greater => {
                j += 1;
            }
            Ordering::Equal => {
                let support = supports[i];
                if 1 < support {
                    put_entry(kept, supports, k, x, support - 1);
                    i += 1;
                    j += 1;
                    k += 1;
                    continue;
                }
                i += 1;
                j += 1;
            }
        }
    }
    Moved { read: i, write: k }
}

// Moves the rows from place from on, of n, with their supports, to place to on. Returns the place behind the last.
fn move_rest(kept: &mut [u32], supports: &mut [u16], from: usize, to: usize, n: usize) -> usize
    requires room { Room n kept.old supports.old }
    requires to_le_from { (to ≤ from) × (from ≤ n) }
    ensures { Gapped (take to (entries n kept.old supports.old) ++ drop from (entries n kept.old supports.old)) n n result kept.old supports.old kept.new supports.new }
{
    let mut k = to;
    for i in from..n {
        let row = table::row_at(kept, i);
        let support = supports[i];
        put_entry(kept, supports, k, row, support);
        k += 1;
    }
    k
}

// Clears the places from place k on, of n.
fn clear_rows(kept: &mut [u32], supports: &mut [u16], k: usize, n: usize)
    requires room { Room n kept.old supports.old }
    requires k_le_n { k ≤ n }
    ensures { Cleared k kept.old supports.old kept.new supports.new }
{
    zero_words(kept, k * 3 + 1, n * 3 + 1);
    zero_supports(supports, k, n);
}

// Lowers the support of each of c ascending rows that is kept by 1; a row at 0 goes. One pass that starts where the first of them
// stands, and ends where no row is left to lower if none has gone.
pub fn lower_all(kept: &mut [u32], supports: &mut [u16], list: &[u32], c: usize)
    requires { Lowerable kept.old supports.old list.now c }
    ensures { Holding (lower_all (first_rows c list.now) (kept_of kept.old supports.old)) kept.old supports.old kept.new supports.new }
{
    let n = kept[0] as usize;
    let from = start_place(kept, list, c);
    let moved = lower_rows(kept, supports, list, c, from);
    let read = moved.read;
    let write = moved.write;
    if read == write {
        return;
    }
    let k = move_rest(kept, supports, read, write, n);
    clear_rows(kept, supports, k, n);
    kept[0] = k as u32;
}
