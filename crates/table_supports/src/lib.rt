// Whether lent numbers are the well-formed supports of the kept rows (document 01, "Tables").
#![tactic(auto)]

ghost use Rattle.std.specs.Prelude.{◌≡◌, ℕ, ◌^◌, ◌≤◌, ◌<◌, length, take, leb};
ghost use Rattle.spec.specs.Tables.{is_support, is_support_table};
ghost use Rattle.spec.specs.Lists.{all};

use table_zeros::are_supports_zero;

// The highest 16-bit number that a support may be, with so many facts.
fn highest_support(facts: usize) -> u16
    ensures { (u : ℕ) → u < 2 ^ 16 → leb u result ≡ leb u facts }
{
    u16::try_from(facts).unwrap_or(u16::MAX)
}

// Whether the first n supports lie between 1 and the number of facts. The loop has no exit, so that the compiler can test several at once.
fn are_supports(u: &[u16], facts: usize, n: usize) -> bool
    requires { n ≤ length u.now }
    ensures { result ≡ all (is_support facts) (take n u.now) }
{
    let highest = highest_support(facts);
    let mut ok = true;
    for support in &u[..n] {
        ok = ok & ((1 <= *support) & (*support <= highest));
    }
    ok
}

// Whether the supports of n kept rows are well formed, with so many facts. One pass.
pub fn is_support_table(u: &[u16], facts: usize, n: usize) -> bool
    ensures { result ≡ is_support_table facts n u.now }
{
    if u.len() < n {
        return false;
    }
    are_supports(u, facts, n) && are_supports_zero(u, n)
}
