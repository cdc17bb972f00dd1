// What is reached by steps of a property: a work list of terms, found, and for each statement a mark once its object is there.
// The words st hold m statements, ascending, after their count.
#![tactic(auto)]

ghost use Rattle.std.specs.Prelude.{◌≡◌, ◌↔◌, ℕ, ◌+◌, ◌*◌, ◌<◌, ◌≤◌, length, get_or, replicate};
ghost use Rattle.table.specs.inside.Bounds.{Tells};
ghost use Rattle.rdfs_reach.specs.inside.Marks.{Statements, HasSubject, Begins, Within, Unused, Room, ObjectOf, ReachedFrom, Grown, Extended};

use spec::Triple;
use table::MOST_STATEMENTS;

// No marks yet: there is one for each statement of the largest table.
pub fn no_marks() -> [u8; MOST_STATEMENTS]
    ensures { result ≡ replicate 512 0 }
{
    [0u8; MOST_STATEMENTS]
}

// Whether row j has the subject x and the property k.
fn has_subject(st: &[u32], j: usize, x: u32, k: u32) -> bool
    requires { j * 3 + 3 < length st.now }
    ensures { Tells result (HasSubject st.now x k j) }
{
    let at = j * 3 + 1;
    (st[at] == x) & (st[at + 1] == k)
}

// Appends to found, from n on, the objects of the statements of the subject x and the property k, which begin at row first and have
// no marks; each gets a mark. The new end.
fn append_block(
    st: &[u32],
    m: usize,
    k: u32,
    x: u32,
    first: usize,
    used: &mut [u8],
    found: &mut [u32],
    n: usize,
) -> usize
    requires statements { Statements st.now m }
    requires begins { Begins st.now m x k first }
    requires room { Room st.now m used.old found.old n }
    requires by_index { (j : ℕ) → j < m → HasSubject st.now x k j → get_or used.old j 0 ≡ 0 }
    ensures { Extended st.now m k (λ y. y ≡ x) used.old found.old n used.new found.new result }
{
    let mut e = n;
    for j in first..m {
        if !has_subject(st, j, x, k) {
            return e;
        }
        let at = j * 3 + 1;
        used[j] = 1;
        found[e] = st[at + 2];
        e += 1;
    }
    e
}

// The row where those of the subject x and the property k begin, or would: the search is for the object 0, and no object is below it.
fn first_row(st: &[u32], m: usize, x: u32, k: u32) -> usize
    requires { Statements st.now m }
    ensures { Begins st.now m x k result }
{
    let least = Triple {
        subject: x,
        property: k,
        object: 0,
    };
    table::lower_bound(st, m, 0, m, least)
}

// Appends to found, from n on, the objects of the statements of the subject x and the property k, unless they have marks: then this was
// done before, since the statements of one subject and property get their marks together. The new end.
fn append_objects(
    st: &[u32],
    m: usize,
    k: u32,
    x: u32,
    used: &mut [u8],
    found: &mut [u32],
    n: usize,
) -> usize
    requires statements { Statements st.now m }
    requires room { Room st.now m used.old found.old n }
    ensures { Extended st.now m k (λ y. y ≡ x) used.old found.old n used.new found.new result }
{
    let first = first_row(st, m, x, k);
    if first == m {
        return n;
    }
    if used[first] != 0 {
        return n;
    }
    append_block(st, m, k, x, first, used, found, n)
}

// Appends to found, from n on, the objects of the statements of the property k whose subject is one of found[from..to]. The new end.
pub fn append_all(
    st: &[u32],
    m: usize,
    k: u32,
    used: &mut [u8],
    found: &mut [u32],
    from: usize,
    to: usize,
    n: usize,
) -> usize
    requires statements { Statements st.now m }
    requires room { Room st.now m used.old found.old n }
    requires unused { Unused st.now m k used.old }
    requires from_le_to { (from ≤ to) × (to ≤ n) }
    ensures grown { Grown st.now m k used.old found.old n used.new found.new result }
    ensures by_index { (o : ℕ) → Within found.new n result o ↔ ObjectOf st.now m k (Within found.old from to) o }
{
    let mut e = n;
    for i in from..to {
        let x = found[i];
        e = append_objects(st, m, k, x, used, found, e);
    }
    e
}

// Closes found[from..n] under the statements of the property k: appends what is reached from there. The new end. Counted by hand: the list grows
// while it is gone through.
pub fn close(
    st: &[u32],
    m: usize,
    k: u32,
    used: &mut [u8],
    found: &mut [u32],
    from: usize,
    n: usize,
) -> usize
    requires statements { Statements st.now m }
    requires room { Room st.now m used.old found.old n }
    requires unused { Unused st.now m k used.old }
    requires from_le_n { from ≤ n }
    ensures grown { Grown st.now m k used.old found.old n used.new found.new result }
    ensures by_index { (b : ℕ) → Within found.new from result b ↔ ReachedFrom st.now m k (Within found.old from n) b }
{
    let mut e = n;
    let mut i = from;
    while i < e {
        let x = found[i];
        e = append_objects(st, m, k, x, used, found, e);
        i += 1;
    }
    e
}
