// Words and supports set to zero.
#![tactic(auto)]

ghost use Rattle.std.specs.Prelude.{◌≤◌, length};
ghost use Rattle.rows_zero.specs.inside.Effects.{WordsZeroed};

// Sets the words from a up to e, without e, to zero.
pub fn zero_words(t: &mut [u32], a: usize, e: usize)
    requires { (a ≤ e) × (e ≤ length t.old) }
    ensures { WordsZeroed a e t.old t.new }
{
    t[a..e].fill(0);
}

// Sets the supports, which have 16 bits, from place a up to e, without e, to zero.
pub fn zero_supports(supports: &mut [u16], a: usize, e: usize)
    requires { (a ≤ e) × (e ≤ length supports.old) }
    ensures { WordsZeroed a e supports.old supports.new }
{
    supports[a..e].fill(0);
}
