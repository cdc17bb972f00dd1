// Whether lent words are zero from an index on: what stands behind the rows of a table, and behind their supports.
#![tactic(auto)]

ghost use Rattle.std.specs.Prelude.{◌≡◌, drop};
ghost use Rattle.spec.specs.Lists.{all};
ghost use Rattle.spec.specs.Tables.{are_zero};

// Whether the elements from an index on are all x. The loop has no exit, so that the compiler can test several at once.
fn are_all<T: Copy + PartialEq>(t: &[T], from: usize, x: T) -> bool
    ensures { result ≡ all (λ w. T.eq w x) (drop from t.now) }
{
    let mut ok = true;
    for i in from..t.len() {
        ok = ok & (t[i] == x);
    }
    ok
}

// Whether the words from an index on are all zero.
pub fn are_words_zero(t: &[u32], from: usize) -> bool
    ensures { result ≡ are_zero (drop from t.now) }
{
    are_all(t, from, 0)
}

// Whether the supports from an index on are all zero.
pub fn are_supports_zero(u: &[u16], from: usize) -> bool
    ensures { result ≡ are_zero (drop from u.now) }
{
    are_all(u, from, 0)
}
