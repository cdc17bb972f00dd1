// The terms that the conclusions from a fact are made of (document 01, "What follows").
#![tactic(auto)]

ghost use Rattle.std.specs.Prelude.{◌≡◌, ◌≤◌, length, drop, replicate};
ghost use Rattle.spec.specs.Tables.{first_rows};
ghost use Rattle.rdfs_reach.specs.inside.Marks.{Statements};
ghost use Rattle.rdfs_derive.specs.inside.Conclusions.{Concluded};

use rdfs_classes::{append_object_classes, append_properties, append_subject_classes};
use rdfs_reach::no_marks;
use spec::Triple;
use table::MOST_STATEMENTS;

// Where a fact's properties, its subject's classes and its object's classes end in the terms found.
#[derive(Clone, Copy)]
pub struct Ends {
    pub properties: usize,
    pub subject: usize,
    pub object: usize,
}

// The most terms that are found for a fact: two, and two for each statement.
pub const MOST_TERMS: usize = MOST_STATEMENTS * 2 + 2;

// No terms yet.
pub fn no_terms() -> [u32; MOST_TERMS]
    ensures { result ≡ replicate 1026 0 }
{
    [0u32; MOST_TERMS]
}

// The terms that a fact's conclusions are made of, in found, and where each part ends. The classes of the subject and those of the object
// are reached over the same statements, so each has marks of its own.
pub fn find_terms(st: &[u32], m: usize, fact: Triple, found: &mut [u32]) -> Ends
    requires statements { Statements st.now m }
    requires in_bounds { 1026 ≤ length found.old }
    ensures { Concluded (first_rows m (drop 1 st.now)) m fact found.new result.properties result.subject result.object }
{
    let mut used = no_marks();
    let mut again = no_marks();
    let properties = append_properties(st, m, fact, &mut used, found);
    let subject = append_subject_classes(st, m, fact, &mut used, found, properties);
    let object = append_object_classes(st, m, fact, &mut again, found, properties, subject);
    Ends {
        properties: properties,
        subject: subject,
        object: object,
    }
}
