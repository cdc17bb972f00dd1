// Rows put into tables in lent words, and taken out of them.
#![tactic(auto)]

ghost use Rattle.std.specs.Prelude.{◌≡◌, ◌+◌, ◌*◌, ◌≤◌, ◌<◌, length};
ghost use Rattle.spec.specs.Tables.{rows, layout};
ghost use Rattle.spec.specs.inside.Laid.{Laid, Spare};
ghost use Rattle.table_change.specs.inside.Words.{Entered, insert_at, remove_at};

use spec::Triple;

// Writes the row x and its support at place i.
pub fn put_entry(kept: &mut [u32], supports: &mut [u16], i: usize, x: Triple, support: u16)
    requires { (i * 3 + 3 < length kept.old) × (i < length supports.old) }
    ensures { Entered i x support kept.old supports.old kept.new supports.new }
{
    let at = i * 3 + 1;
    kept[at] = x.subject;
    kept[at + 1] = x.property;
    kept[at + 2] = x.object;
    supports[i] = support;
}

// Puts x before row at.
pub fn insert_at(t: &mut [u32], at: usize, x: Triple)
    requires spare { Spare t.old }
    requires at_in_bounds { at ≤ length (rows t.old) }
    ensures { t.new ≡ layout (length t.old) (insert_at at x (rows t.old)) }
{
    let n = t[0];
    let k = at * 3 + 1;
    t.copy_within(k..n as usize * 3 + 1, k + 3);
    t[k] = x.subject;
    t[k + 1] = x.property;
    t[k + 2] = x.object;
    t[0] = n + 1;
}

// Takes row at out.
pub fn remove_at(t: &mut [u32], at: usize)
    requires laid { Laid t.old }
    requires at_in_bounds { at < length (rows t.old) }
    ensures { t.new ≡ layout (length t.old) (remove_at at (rows t.old)) }
{
    let n = t[0];
    let k = at * 3 + 1;
    let e = n as usize * 3 - 2;
    t.copy_within(k + 3..e + 3, k);
    t[e..e + 3].fill(0);
    t[0] = n - 1;
}
