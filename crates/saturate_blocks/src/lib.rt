// The facts of one subject: the blocks of one property, those of them that lead to a column, and those that are put as they are.
#![tactic(auto)]

ghost use Rattle.std.specs.Prelude.{◌≡◌, ℕ, ◌+◌, ◌-◌, ◌*◌, ◌^◌, ◌≤◌, ◌<◌, length, get_or, eqb};
ghost use Rattle.saturate_merge.specs.inside.Output.{output, put_all};
ghost use Rattle.saturate_merge.specs.inside.Streams.{streams, AllRising};
ghost use Rattle.saturate_schema.specs.inside.Nodes.{property_node};
ghost use Rattle.saturate_schema.specs.inside.Groups.{Statements};
ghost use Rattle.saturate_schema.specs.inside.Compiled.{property_at, node_bit};
ghost use Rattle.saturate_counts.specs.inside.Prepared.{Square};
ghost use Rattle.saturate_blocks.specs.inside.Blocks.{OneSubject, Block, Gathered};
ghost use Rattle.saturate_blocks.specs.inside.Plain.{ones, Split};

use saturate_merge::put;
use saturate_schema::{MOST_COLUMNS, Sizes};
use table::{property_at, wide};

// Whether the property p leads to column c.
fn leads_to(statements: &[u32], sizes: Sizes, domains: &[u8], p: u32, c: usize) -> bool
    requires statements { Statements statements.now sizes.statements }
    requires square { Square statements.now sizes.statements sizes.columns domains.now }
    requires c_lt_columns { (c < sizes.columns) × (sizes.columns ≤ 512) }
    ensures { result ≡ eqb (node_bit statements.now sizes.statements domains.now (property_node p) c) 1 }
{
    let m = sizes.statements;
    let g = saturate_groups::property_group(statements, m, p);
    if g < m {
        return domains[g * MOST_COLUMNS + c] == 1;
    }
    false
}

// The end of the facts from a on, below e, that have the property of fact a.
fn block_end(f: &[u32], a: usize, e: usize) -> usize
    requires a_lt_e { (a < e) × (e * 3 < length f.now) }
    requires one_subject { OneSubject f.now a e }
    ensures { Block f.now a result e (property_at f.now a) }
{
    let p = property_at(f, a);
    for z in a + 1..e {
        if property_at(f, z) != p {
            return z;
        }
    }
    e
}

// Adds to the first k0 streams the blocks of the facts i .. e, of one subject, whose property leads to column c; how many streams there are then.
pub fn gather(
    statements: &[u32],
    sizes: Sizes,
    domains: &[u8],
    c: usize,
    f: &[u32],
    i: usize,
    e: usize,
    ends: &mut [usize],
    k0: usize,
) -> usize
    requires statements { Statements statements.now sizes.statements }
    requires c_lt_columns { (c < sizes.columns) × (sizes.columns ≤ 512) × (i ≤ e) × (e * 3 < length f.now) × ((k0 + sizes.statements) * 2 ≤ length ends.old) }
    requires square { Square statements.now sizes.statements sizes.columns domains.now }
    requires one_subject { OneSubject f.now i e }
    requires all_rising { AllRising (streams f.now ends.old k0) × ((z : ℕ) → z < k0 → get_or ends.old (z * 2 + 1) 0 * 3 < length f.now) }
    ensures { Gathered statements.now sizes.statements domains.now c f.now ends.old ends.new k0 result i e e }
{
    let mut k = k0;
    let mut y = i;
    while y < e {
        let a = y;
        let z = block_end(f, a, e);
        y = z;
        if leads_to(statements, sizes, domains, property_at(f, a), c) {
            ends[k * 2] = a;
            ends[k * 2 + 1] = z;
            k += 1;
        }
    }
    k
}

// The first of the facts q .. e, of one subject, whose property is not below w; e where there is none.
pub fn first_from(f: &[u32], q: usize, e: usize, w: u64) -> usize
    requires q_le_e { (q ≤ e) × (e * 3 < length f.now) }
    requires one_subject { OneSubject f.now q e }
    ensures { Split f.now q result e w }
{
    for z in q..e {
        if w <= wide(property_at(f, z)) {
            return z;
        }
    }
    e
}

// Puts the facts a .. b as they are, each with the support 1.
pub fn put_facts(
    f: &[u32],
    a: usize,
    b: usize,
    kept: &mut [u32],
    supports: &mut [u16],
    room: usize,
    n0: usize,
) -> usize
    requires b_in_bounds { b * 3 < length f.now }
    requires room_in_bounds { (room * 3 < length kept.old) × (room ≤ length supports.old) × (room ≤ 2 ^ 32) }
    ensures { output kept.new supports.new result ≡ put_all room (ones f.now a (b - a)) (output kept.old supports.old n0) }
{
    let mut n = n0;
    for y in a..b {
        let t = table::row_at(f, y);
        n = put(kept, supports, room, n, t.subject, t.property, t.object, 1);
    }
    n
}
