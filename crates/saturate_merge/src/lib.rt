// Rows with their supports, put one after the other: merged from ascending streams of objects.
// What a function puts is said of every list K of kept facts whose supports are those that the function sees: it puts a part of K.
#![tactic(auto)]

ghost use Rattle.std.specs.Prelude.{◌≡◌, ℕ, ◌+◌, ◌-◌, ◌*◌, ◌^◌, ◌≤◌, ◌<◌, length, get_or};
ghost use Rattle.spec.specs.Terms.{triple};
ghost use Rattle.spec.specs.Saturation.{Kept};
ghost use Rattle.spec.specs.inside.Counts.{Counts};
ghost use Rattle.saturate_merge.specs.inside.Output.{output, put_one, put_all};
ghost use Rattle.saturate_merge.specs.inside.Streams.{front_of, objects, streams, least_of, hits, strips, Inside, AllRising, Tallied};
ghost use Rattle.saturate_merge.specs.inside.Between.{between};

use spec::Triple;
use table::{WORDS, object_at, wide};

// Rows are counted up to this number, which no table reaches.
const MOST_COUNTED: usize = 4294967296;

// Puts row n with its support, where there is room for it. One row more than before, counted up to 2^32.
pub fn put(
    kept: &mut [u32],
    supports: &mut [u16],
    room: usize,
    n: usize,
    s: u32,
    p: u32,
    o: u32,
    support: u16,
) -> usize
    requires { (room * 3 < length kept.old) × (room ≤ length supports.old) × (room ≤ 2 ^ 32) }
    ensures { output kept.new supports.new result ≡ put_one room (triple s p o, support) (output kept.old supports.old n) }
{
    if n < room {
        let row = Triple {
            subject: s,
            property: p,
            object: o,
        };
        table_change::put_entry(kept, supports, n, row, support);
        return n + 1;
    }
    if n < MOST_COUNTED {
        return n + 1;
    }
    n
}

// The object at the front of the rows a .. b; 2^32 where there are none, so that a stream at its end comes last.
fn front(f: &[u32], a: usize, b: usize) -> u64
    requires { b * 3 < length f.now }
    ensures { result ≡ front_of (objects f.now a (b - a)) }
{
    if a < b { wide(object_at(f, a)) } else { WORDS }
}

// The least object at the front of the first k streams, 2^32 where all are at their end.
fn least(f: &[u32], ends: &[usize], k: usize) -> u64
    requires { Inside f.now ends.now k }
    ensures { result ≡ least_of (streams f.now ends.now k) }
{
    let mut best = WORDS;
    for y in 0..k {
        best = front(f, ends[y * 2], ends[y * 2 + 1]).min(best);
    }
    best
}

// Steps the streams whose front is o, and counts them.
fn step(f: &[u32], ends: &mut [usize], k: usize, o: u64) -> u16
    requires inside { Inside f.now ends.old k }
    requires k_bound { k < 2 ^ 16 }
    requires o_bound { o < 2 ^ 32 }
    ensures value { result ≡ hits o (streams f.now ends.old k) }
    ensures k_after { streams f.now ends.new k ≡ strips o (streams f.now ends.old k) }
    ensures by_index { (y : ℕ) → get_or ends.new (y * 2 + 1) 0 ≡ get_or ends.old (y * 2 + 1) 0 }
{
    let mut c = 0;
    for y in 0..k {
        let z = y * 2;
        let a = ends[z];
        if front(f, a, ends[z + 1]) == o {
            c += 1;
            ends[z] = a + 1;
        }
    }
    c
}

// Puts x q o for each object o of the first k streams, ascending; the support is the number of streams that have it.
pub fn merge_streams(
    f: &[u32],
    ends: &mut [usize],
    k: usize,
    x: u32,
    q: u32,
    kept: &mut [u32],
    supports: &mut [u16],
    room: usize,
    n0: usize,
) -> usize
    requires inside { Inside f.now ends.old k }
    requires all_rising { AllRising (streams f.now ends.old k) }
    requires k_bound { k < 2 ^ 16 }
    requires room_in_bounds { (room * 3 < length kept.old) × (room ≤ length supports.old) × (room ≤ 2 ^ 32) }
    ensures { (K : Kept) → Counts K → Tallied K x q (streams f.now ends.old k) → output kept.new supports.new result ≡ put_all room (between (triple x q 0) (triple x (q + 1) 0) K) (output kept.old supports.old n0) }
{
    let mut n = n0;
    while let Ok(o) = u32::try_from(least(f, ends, k)) {
        let c = step(f, ends, k, wide(o));
        n = put(kept, supports, room, n, x, q, o, c);
    }
    n
}
