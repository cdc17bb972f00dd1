// Rows with their supports, merged from ascending objects and counted keys, and put one after the other.
// What is put is said of every list K of kept facts whose supports are those that the function sees: it puts a part of K.
#![tactic(auto)]

ghost use Rattle.std.specs.Prelude.{◌≡◌, ℕ, ◌-◌, ◌*◌, ◌^◌, ◌≤◌, ◌<◌, length};
ghost use Rattle.spec.specs.Terms.{triple};
ghost use Rattle.spec.specs.Saturation.{Kept};
ghost use Rattle.spec.specs.inside.Counts.{Counts};
ghost use Rattle.saturate_merge.specs.inside.Output.{output, put_all};
ghost use Rattle.saturate_merge.specs.inside.Streams.{objects, Rising};
ghost use Rattle.saturate_merge.specs.inside.Between.{between};
ghost use Rattle.saturate_counted.specs.inside.Counted.{KeysRising, counted, total, key_at, Totalled};

use saturate_merge::put;
use table::{MOST_STATEMENTS, WORDS, object_at, wide};
use terms::Term;

// Rows of a table that have one subject: from one, and below another.
#[derive(Clone, Copy)]
pub struct Own {
    pub subject: u32,
    pub from: usize,
    pub to: usize,
}

// Key r; 2^32 from end on, so that all objects that are left come before it.
fn key_at(keys: &[u32; MOST_STATEMENTS], r: usize, end: usize) -> u64
    requires { end ≤ 512 }
    ensures { result ≡ key_at keys.now r end }
{
    if r < end { wide(keys[r]) } else { WORDS }
}

// Puts x rdf:type o, x being the subject, for each object o of some rows and each key o below end that was counted, ascending; the support
// of a key is its count, and one more where it is an object too. No `for` while both last: the lesser says which of the two goes on.
pub fn merge_counted(
    f: &[u32],
    own: Own,
    keys: &[u32; MOST_STATEMENTS],
    end: usize,
    counts: &[u32; MOST_STATEMENTS],
    kept: &mut [u32],
    supports: &mut [u16],
    room: usize,
    n0: usize,
) -> usize
    requires to_in_bounds { (own.to * 3 < length f.now) × (end ≤ 512) }
    requires rising { Rising (objects f.now own.from (own.to - own.from)) }
    requires keys_rising { KeysRising (counted keys.now counts.now 0 end) }
    requires by_index { (o : ℕ) → total (objects f.now own.from (own.to - own.from)) (counted keys.now counts.now 0 end) o < 2 ^ 16 }
    requires room_in_bounds { (room * 3 < length kept.old) × (room ≤ length supports.old) × (room ≤ 2 ^ 32) }
    ensures { (K : Kept) → Counts K → Totalled K own.subject 1 (objects f.now own.from (own.to - own.from)) (counted keys.now counts.now 0 end) → output kept.new supports.new result ≡ put_all room (between (triple own.subject 1 0) (triple own.subject 2 0) K) (output kept.old supports.old n0) }
{
    let x = own.subject;
    let e = own.to;
    let mut n = n0;
    let mut q = own.from;
    let mut r = 0;
    while q < e {
        let ce = object_at(f, q);
        let cs = key_at(keys, r, end);
        if wide(ce) < cs {
            n = put(kept, supports, room, n, x, Term::TYPE, ce, 1);
            q += 1;
        } else {
            let c = counts[r];
            let k = keys[r];
            r += 1;
            if k == ce {
                n = put(kept, supports, room, n, x, Term::TYPE, ce, (c + 1) as u16);
                q += 1;
            } else {
                if 0 < c {
                    n = put(kept, supports, room, n, x, Term::TYPE, k, c as u16);
                }
            }
        }
    }
    for i in r..end {
        let c = counts[i];
        if 0 < c {
            n = put(kept, supports, room, n, x, Term::TYPE, keys[i], c as u16);
        }
    }
    n
}
