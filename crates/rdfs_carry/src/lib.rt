// What a fact carries (document 01, "What follows").
#![tactic(auto)]

ghost use Rattle.std.specs.Prelude.{◌≡◌, true, ℕ, ◌*◌, ◌<◌, ◌≤◌, length, get_or, take};
ghost use Rattle.spec.specs.Tables.{triple_from, rows, flatten, is_statement_table};
ghost use Rattle.spec.specs.computed.Carried.{carried};
ghost use Rattle.rdfs_carry.specs.inside.Written.{conclusion_at};

use rdfs_derive::{Ends, MOST_TERMS, find_terms, no_terms};
use spec::Triple;
use terms::Term;

// The conclusion by the term x at place i of those found.
fn conclusion(fact: Triple, ends: Ends, x: u32, i: usize) -> Triple
    ensures { result ≡ conclusion_at fact ends.properties ends.subject x i }
{
    if i < ends.properties {
        return Triple {
            subject: fact.subject,
            property: x,
            object: fact.object,
        };
    }
    if i < ends.subject {
        return Triple {
            subject: fact.subject,
            property: Term::TYPE,
            object: x,
        };
    }
    Triple {
        subject: fact.object,
        property: Term::TYPE,
        object: x,
    }
}

// Writes the conclusions, three words each, in the order of the terms found.
fn write_conclusions(fact: Triple, ends: Ends, found: &[u32], out: &mut [u32])
    requires { (ends.object ≤ length found.now) × (ends.object * 3 ≤ length out.old) }
    ensures { (i : ℕ) → i < ends.object → triple_from out.new (i * 3) ≡ conclusion_at fact ends.properties ends.subject (get_or found.now i 0) i }
{
    for (i, x) in found[..ends.object].iter().enumerate() {
        let t = conclusion(fact, ends, *x, i);
        let at = i * 3;
        out[at] = t.subject;
        out[at + 1] = t.property;
        out[at + 2] = t.object;
    }
}

// Room for the rows that a fact carries: two, and two for each statement. Nothing is ensured: what is in it does not matter.
pub fn no_rows() -> [u32; MOST_TERMS * 3] {
    [0u32; MOST_TERMS * 3]
}

// What a fact carries, itself included: its rows, ascending, each once, three words each, into out. How many they are. There has to be
// room for a row for each term found, and some are found more than once.
pub fn carry(statements: &[u32], fact: Triple, out: &mut [u32]) -> usize
    requires statements_value { is_statement_table statements.now ≡ true }
    requires in_bounds { 3078 ≤ length out.old }
    ensures value { result ≡ length (carried (rows statements.now) fact) }
    ensures out_after { take (result * 3) out.new ≡ flatten (carried (rows statements.now) fact) }
{
    let m = statements[0] as usize;
    let mut found = no_terms();
    let ends = find_terms(statements, m, fact, &mut found);
    write_conclusions(fact, ends, &found, out);
    let n = ends.object;
    rows_sort::sort_distinct(out, 3, n)
}
