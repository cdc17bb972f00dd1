// The statements of a class or a property, found in the table of statements.
#![tactic(auto)]

ghost use Rattle.saturate_schema.specs.inside.Nodes.{property_node, subject_node, Found};
ghost use Rattle.saturate_schema.specs.inside.Groups.{Statements, Group};

use saturate_schema::subject_node;
use spec::Triple;
use table::{WORDS, wide};
use terms::Term;

// The first statement that starts at the node x, whose statements have the subject a and the property k or a greater one; m where there
// is none.
fn first_of_group(statements: &[u32], m: usize, a: u32, k: u32, x: u64) -> usize
    requires statements { Statements statements.now m }
    requires group { Group statements.now m a k x }
    ensures { Found (subject_node statements.now) m x result }
{
    let least = Triple {
        subject: a,
        property: k,
        object: 0,
    };
    let r = table::lower_bound(statements, m, 0, m, least);
    if r < m {
        if subject_node(statements, r) == x {
            return r;
        }
    }
    m
}

// The first statement 3, 4 or 5 of the property p; m where there is none.
pub fn property_group(statements: &[u32], m: usize, p: u32) -> usize
    requires { Statements statements.now m }
    ensures { Found (subject_node statements.now) m (property_node p) result }
{
    let x = wide(p) + WORDS;
    first_of_group(statements, m, p, Term::SUB_PROPERTY_OF, x)
}

// The first statement 2 of the class c; m where there is none.
pub fn class_group(statements: &[u32], m: usize, c: u32) -> usize
    requires { Statements statements.now m }
    ensures { Found (subject_node statements.now) m c result }
{
    let x = wide(c);
    first_of_group(statements, m, c, Term::SUB_CLASS_OF, x)
}
