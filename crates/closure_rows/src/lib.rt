// Rows of bits in the words of a closure: what a row gains, and a row that gets it, 32 columns at a time.
#![tactic(auto)]

ghost use Rattle.std.specs.Prelude.{◌≡◌, ◌≤◌, ◌<◌, length};
ghost use Rattle.saturate_schema.specs.inside.Squares.{Joined, Gained};
ghost use Rattle.closure_words.specs.inside.Layout.{bit_at};
ghost use Rattle.closure_rows.specs.inside.Rows.{row_bit, AloneIn, GainedIn};

use closure_words::{BITS, ROW};

// Word w of a row that has column c alone.
fn column_word(c: usize, w: usize) -> u32
    ensures { AloneIn c w result }
{
    if c / 32 == w { 1u32 << (c % 32) } else { 0 }
}

// Word w of a row that has column so and, if it is one of m rows, what row go has.
fn gain_word(closure: &[u32], go: usize, m: usize, so: usize, w: usize) -> u32
    requires { (length closure.now ≡ 8706) × (m ≤ 512) × (w < 16) }
    ensures { GainedIn (bit_at closure.now) go m so w result }
{
    let end = column_word(so, w);
    if go < m {
        return closure[BITS + go * ROW + w] | end;
    }
    end
}

// What a row that leads to a statement gains: its end, column so, and what row go of that end has, if it is one of m rows.
pub fn gains(closure: &[u32], go: usize, m: usize, so: usize, gain: &mut [u32])
    requires { (length closure.now ≡ 8706) × (m ≤ 512) × (length gain.old ≡ 16) }
    ensures { Gained (bit_at closure.now) (row_bit gain.new) go m so 512 }
{
    for w in 0..ROW {
        gain[w] = gain_word(closure, go, m, so, w);
    }
}

// Row a gets what gain has. No branch, so that many words are done at once.
pub fn unite(closure: &mut [u32], a: usize, gain: &[u32])
    requires { (length closure.old ≡ 8706) × (a < 512) × (length gain.now ≡ 16) }
    ensures { Joined (bit_at closure.old) (bit_at closure.new) (row_bit gain.now) a 512 }
{
    for w in 0..ROW {
        closure[BITS + a * ROW + w] |= gain[w];
    }
}
