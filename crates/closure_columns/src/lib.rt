// The words of a closure before its bits written: the counts and the terms of the columns.
#![tactic(auto)]

ghost use Rattle.std.specs.Prelude.{◌≡◌, ℕ, ◌^◌, ◌≤◌, ◌<◌, length, get_or};
ghost use Rattle.closure_words.specs.inside.Layout.{classes_of, columns_of, bit_at};
ghost use Rattle.closure_columns.specs.inside.Headed.{Headed};

use closure_words::{BITS, TERMS};

// Writes how many columns are classes, and how many there are.
fn write_counts(nc: usize, ns: usize, closure: &mut [u32])
    requires { (length closure.old ≡ 8706) × (nc ≤ 512) × (ns ≤ 512) }
    ensures closure_after { (classes_of closure.new ≡ nc) × (columns_of closure.new ≡ ns) }
    ensures by_index { (i c : ℕ) → bit_at closure.new i c ≡ bit_at closure.old i c }
{
    closure[0] = nc as u32;
    closure[1] = ns as u32;
}

// Writes the counts and the terms of the columns.
pub fn write_columns(columns: &[u64], ns: usize, nc: usize, closure: &mut [u32])
    requires closure_len { (length closure.old ≡ 8706) × (ns ≤ length columns.now) × (ns ≤ 512) × (nc ≤ ns) }
    requires by_index { (c : ℕ) → c < ns → get_or columns.now c 0 < 2 ^ 33 }
    ensures { Headed columns.now ns nc closure.old closure.new }
{
    write_counts(nc, ns, closure);
    saturate_columns::terms(columns, ns, &mut closure[TERMS..BITS]);
}
