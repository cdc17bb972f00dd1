// The properties of a fact, and the classes of its subject and of its object.
#![tactic(auto)]

ghost use Rattle.std.specs.Prelude.{◌≡◌, cond, ◌↔◌, ℕ, ◌+◌, ◌<◌, ◌≤◌, length, get_or, drop, eqb};
ghost use mathlib.Core.List.{[], ◌∷◌, Memᴰ};
ghost use Rattle.spec.specs.Terms.{type, sub_class_of, sub_property_of, domain, range};
ghost use Rattle.spec.specs.Tables.{row_at, first_rows};
ghost use Rattle.spec.specs.computed.Carried.{properties, subject_classes, object_classes};
ghost use Rattle.rdfs_reach.specs.inside.Marks.{Statements, Within, unused, Uniform, Unused, Room};
ghost use Rattle.rdfs_classes.specs.inside.Listed.{Listed};

use rdfs_reach::{append_all, close};
use spec::Triple;
use terms::Term;

// The properties of a fact, from the start of found on: its own, and what is reached from there. Their end.
pub fn append_properties(
    st: &[u32],
    m: usize,
    fact: Triple,
    used: &mut [u8],
    found: &mut [u32],
) -> usize
    requires statements { Statements st.now m }
    requires room { Room st.now m used.old found.old 1 }
    requires unused { Unused st.now m sub_property_of used.old }
    ensures listed { Listed (properties (first_rows m (drop 1 st.now)) fact) found.old 0 found.new result }
    ensures used_after { result + unused m used.new ≡ 1 + unused m used.old }
    ensures by_index { (j : ℕ) → j < m → ¬ ((row_at st.now j).property ≡ sub_property_of) → get_or used.new j 0 ≡ get_or used.old j 0 }
    ensures uniform { Uniform st.now m used.new }
{
    found[0] = fact.property;
    close(st, m, Term::SUB_PROPERTY_OF, used, found, 0, 1)
}

// The object of a fact that gives its subject a type, appended at n. The new end.
fn append_type(fact: Triple, found: &mut [u32], n: usize) -> usize
    requires { n < length found.old }
    ensures listed { Listed (cond (eqb fact.property type) (fact.object ∷ []) []) found.old n found.new result }
    ensures upper_bound { result ≤ n + 1 }
{
    if fact.property == Term::TYPE {
        found[n] = fact.object;
        return n + 1;
    }
    n
}

// The classes of a fact's subject, appended at n: the object of a type and the domains of its properties, which are found[0..n], and
// what is reached from there. The new end.
pub fn append_subject_classes(
    st: &[u32],
    m: usize,
    fact: Triple,
    used: &mut [u8],
    found: &mut [u32],
    n: usize,
) -> usize
    requires statements { Statements st.now m }
    requires room { Room st.now m used.old found.old (n + 1) }
    requires unused { Unused st.now m domain used.old × Unused st.now m sub_class_of used.old }
    requires by_index { (q : ℕ) → Within found.old 0 n q ↔ Memᴰ q (properties (first_rows m (drop 1 st.now)) fact) }
    ensures listed { Listed (subject_classes (first_rows m (drop 1 st.now)) fact) found.old n found.new result }
    ensures upper_bound { result ≤ n + 1 + unused m used.old }
{
    let e = append_type(fact, found, n);
    let d = append_all(st, m, Term::DOMAIN, used, found, 0, n, e);
    close(st, m, Term::SUB_CLASS_OF, used, found, n, d)
}

// The classes of a fact's object, appended at n: the ranges of its properties, which are found[0..a], and what is reached from there; none
// if the object is a literal. The new end.
pub fn append_object_classes(
    st: &[u32],
    m: usize,
    fact: Triple,
    used: &mut [u8],
    found: &mut [u32],
    a: usize,
    n: usize,
) -> usize
    requires statements { Statements st.now m }
    requires room { Room st.now m used.old found.old n × (a ≤ n) }
    requires unused { Unused st.now m range used.old × Unused st.now m sub_class_of used.old }
    requires by_index { (q : ℕ) → Within found.old 0 a q ↔ Memᴰ q (properties (first_rows m (drop 1 st.now)) fact) }
    ensures listed { Listed (object_classes (first_rows m (drop 1 st.now)) fact) found.old n found.new result }
    ensures upper_bound { result ≤ n + unused m used.old }
{
    let object = Term { word: fact.object };
    if object.is_literal() {
        return n;
    }
    let e = append_all(st, m, Term::RANGE, used, found, 0, a, n);
    close(st, m, Term::SUB_CLASS_OF, used, found, n, e)
}
