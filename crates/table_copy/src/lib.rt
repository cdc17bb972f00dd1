// Tables copied into lent tables of another length: the rows and zeros to the end, and the supports of rows, which come in 16 bits.
#![tactic(auto)]

ghost use Rattle.std.specs.Prelude.{◌≡◌, ◌++◌, ◌+◌, ◌*◌, ◌≤◌, length, take, drop};
ghost use Rattle.spec.specs.Lists.{padded};
ghost use Rattle.spec.specs.Tables.{count, rows, layout};
ghost use Rattle.spec.specs.inside.Laid.{Laid};

use rows_zero::zero_words;

// Copies the first n words.
fn copy_words(old: &[u32], n: usize, new: &mut [u32])
    requires n_in_bounds { n ≤ length old.now }
    requires n_in_bounds_2 { n ≤ length new.old }
    ensures { new.new ≡ take n old.now ++ drop n new.old }
{
    new[..n].copy_from_slice(&old[..n]);
}

// Copies the first n numbers of 16 bits, each into a word.
fn copy_shorts(old: &[u16], n: usize, new: &mut [u32])
    requires n_in_bounds { n ≤ length old.now }
    requires n_in_bounds_2 { n ≤ length new.old }
    ensures { new.new ≡ take n old.now ++ drop n new.old }
{
    for (place, x) in old[..n].iter().enumerate() {
        new[place] = u32::from(*x);
    }
}

// Copies a table: its count and its rows, then zeros to the end. Each word of the new table is written once.
pub fn copy_table(old: &[u32], new: &mut [u32])
    requires laid { Laid old.now }
    requires in_bounds { count old.now * 3 + 1 ≤ length new.old }
    ensures { new.new ≡ layout (length new.old) (rows old.now) }
{
    let words = old[0] as usize * 3 + 1;
    copy_words(old, words, new);
    zero_words(new, words, new.len());
}

// Copies the supports of n rows, then zeros to the end. Each place of the new table is written once.
pub fn copy_supports(old: &[u16], n: usize, new: &mut [u32])
    requires n_in_bounds { n ≤ length old.now }
    requires n_in_bounds_2 { n ≤ length new.old }
    ensures { new.new ≡ padded (length new.old) (take n old.now) }
{
    copy_shorts(old, n, new);
    zero_words(new, n, new.len());
}
