// The next subject of a row, and the ends of the facts that have it as their subject, and as their object.
#![tactic(auto)]

ghost use Rattle.std.specs.Prelude.{◌≡◌, ◌+◌, ◌*◌, ◌≤◌, ◌<◌, length, get_or};
ghost use Rattle.saturate_schema.specs.inside.Compiled.{subject_at};
ghost use Rattle.saturate_index.specs.inside.Index.{object_of, Index};
ghost use Rattle.saturate_next.specs.inside.Run.{EndOf, subject_from, thing_from, next_subject};

use table::{WORDS, object_at, subject_at, wide};

// The end of the facts from i on, below n, whose subject is x.
pub fn subject_end(f: &[u32], n: usize, i: usize, x: u32) -> usize
    requires { (i ≤ n) × (n * 3 < length f.now) }
    ensures { EndOf (subject_at f.now) n x i result }
{
    for e in i..n {
        if subject_at(f, e) != x {
            return e;
        }
    }
    n
}

// The object at place a of the index.
fn object_of(f: &[u32], ix: &[u32], a: usize) -> u32
    requires a_in_bounds { a < length ix.now }
    requires a_in_bounds_2 { get_or ix.now a 0 * 3 + 3 < length f.now }
    ensures { result ≡ object_of f.now ix.now a }
{
    object_at(f, ix[a] as usize)
}

// The end of the places from j on, below n, whose object is x.
pub fn object_end(f: &[u32], ix: &[u32], n: usize, j: usize, x: u32) -> usize
    requires j_le_n { j ≤ n }
    requires index { Index f.now ix.now n }
    ensures { EndOf (object_of f.now ix.now) n x j result }
{
    for h in j..n {
        if object_of(f, ix, h) != x {
            return h;
        }
    }
    n
}

// The subject of fact i; 2^32 where there is none, so that the lesser of it and a thing is the next subject.
fn subject_from(f: &[u32], n: usize, i: usize) -> u64
    requires { n * 3 < length f.now }
    ensures { result ≡ subject_from f.now n i }
{
    if i < n { wide(subject_at(f, i)) } else { WORDS }
}

// The words from here on are literals or variables: 2^31.
const LITERALS: u64 = 2147483648;

// The object at place j of the index; 2^32 where there is none or it is a literal.
fn thing_from(f: &[u32], ix: &[u32], n: usize, j: usize) -> u64
    requires { Index f.now ix.now n }
    ensures { result ≡ thing_from f.now ix.now n j }
{
    if j < n {
        let o = wide(object_of(f, ix, j));
        if o < LITERALS {
            return o;
        }
    }
    WORDS
}

// The next subject of a row; 2^32 where there is none.
pub fn next_subject(f: &[u32], ix: &[u32], n: usize, i: usize, j: usize) -> u64
    requires { Index f.now ix.now n }
    ensures { result ≡ next_subject f.now ix.now n i j }
{
    subject_from(f, n, i).min(thing_from(f, ix, n, j))
}
