// The highest support of a store's kept facts.
#![tactic(auto)]

ghost use Rattle.std.specs.Prelude.{◌≡◌, ◌≤◌, ◌<◌, length, take};
ghost use Rattle.delivery_supports.specs.inside.Highest.{highest};

// The highest of the first n supports, 0 where there is none. One pass.
fn highest(supports: &[u16], n: usize) -> usize
    requires { n ≤ length supports.now }
    ensures { result ≡ highest (take n supports.now) }
{
    let mut most: usize = 0;
    for support in &supports[..n] {
        most = most.max(usize::from(*support));
    }
    most
}

// A bound of the first n supports: the one that is known where it is within the number of facts, and else the highest of them.
pub fn bound(supports: &[u16], n: usize, facts: usize, known: usize) -> usize
    requires n_in_bounds { n ≤ length supports.now }
    requires supports_bound { highest (take n supports.now) ≤ known }
    ensures lower_bound { highest (take n supports.now) ≤ result }
    ensures value { facts < result → result ≡ highest (take n supports.now) }
{
    if known <= facts {
        return known;
    }
    highest(supports, n)
}
