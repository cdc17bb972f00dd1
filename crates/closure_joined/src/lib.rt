// All that the subject of a subclass or subproperty statement leads to, gathered from words that hold the closed pairs.
#![tactic(auto)]

ghost use Rattle.std.specs.Prelude.{◌≡◌, List, ℕ, ◌≤◌, ◌<◌, length};
ghost use Rattle.closure_words.specs.inside.Layout.{Shaped};
ghost use Rattle.closure_words.specs.inside.Closure.{IsStated, IsClosure};
ghost use Rattle.closure_joined.specs.inside.Joined.{NextColumn, AllJoined};

use closure_words::{BITS, ROW, TERMS, end_column, first_column, is_set};

// The column after c; where the word of c has no bit, the first column of the next word.
fn next_column(closure: &[u32], i: usize, c: usize) -> usize
    requires { (length closure.now ≡ 8706) × (i < 512) × (c < 512) }
    ensures { NextColumn closure.now i c result }
{
    if closure[BITS + i * ROW + c / 32] == 0 {
        return (c / 32 + 1) * 32;
    }
    c + 1
}

// Writes all terms that the subject of statement i, whose property is 2 or 3, leads to by one or more steps of its property, ascending. How many
// they are.
pub fn find_joined(closure: &[u32], i: usize, property: u32, found: &mut [u32]) -> usize
    requires { Shaped closure.now × (i < 512) × (512 ≤ length found.old) }
    ensures { (st : List ℕ) → IsClosure st closure.now → IsStated st i property → AllJoined st i found.new result }
{
    let hi = end_column(closure, property);
    let mut c = first_column(closure, property);
    let mut n = 0;
    while c < hi {
        let at = c;
        c = next_column(closure, i, at);
        if is_set(closure, i, at) {
            found[n] = closure[at + TERMS];
            n += 1;
        }
    }
    n
}
