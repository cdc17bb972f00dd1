// What the subject of a subclass or subproperty statement leads to, looked up in words that hold the closed pairs: how many columns are
// classes, how many there are, the terms of the columns, and for each statement a bit for each column.
#![tactic(auto)]

ghost use Rattle.std.specs.Prelude.{◌≡◌, ◌<◌, length};
ghost use Rattle.table.specs.inside.Bounds.{Tells};
ghost use Rattle.closure_words.specs.inside.Layout.{bit_at, first_column, end_column, Shaped};

use terms::Term;

// How many words there are.
pub const CLOSURE_WORDS: usize = 8706;

// Where the terms of the columns begin.
pub const TERMS: usize = 2;

// Where the bits begin.
pub const BITS: usize = 514;

// How many words a statement's bits take.
pub const ROW: usize = 16;

// Whether the bit of statement i and column c is 1.
pub fn is_set(closure: &[u32], i: usize, c: usize) -> bool
    requires { (length closure.now ≡ 8706) × (i < 512) × (c < 512) }
    ensures { Tells result (bit_at closure.now i c ≡ 1) }
{
    (closure[BITS + i * ROW + c / 32] >> (c % 32)) % 2 == 1
}

// Where the columns of a property begin: of 2, the classes; of 3, the properties.
pub fn first_column(closure: &[u32], property: u32) -> usize
    requires { Shaped closure.now }
    ensures { result ≡ first_column closure.now property }
{
    if property == Term::SUB_CLASS_OF {
        0
    } else {
        closure[0] as usize
    }
}

// Where they end.
pub fn end_column(closure: &[u32], property: u32) -> usize
    requires { Shaped closure.now }
    ensures { result ≡ end_column closure.now property }
{
    if property == Term::SUB_CLASS_OF {
        closure[0] as usize
    } else {
        closure[1] as usize
    }
}
