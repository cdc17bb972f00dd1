// Whether a property or a class leads to a target, worked out from the statements.
#![tactic(auto)]

ghost use Rattle.std.specs.Prelude.{◌≡◌, true, ◌≤◌, length};
ghost use Rattle.spec.specs.Tables.{rows, is_statement_table};
ghost use Rattle.rdfs_reach.specs.inside.Marks.{Within};
ghost use Rattle.table.specs.inside.Bounds.{Tells};
ghost use Rattle.rdfs_relevance.specs.inside.Targets.{example, Led};

use rdfs_relevance::{ANY_OBJECT_CLASS, CLASS, OBJECT_CLASS, PROPERTY};
use spec::Triple;
use terms::Term;

// A thing of which nothing is stated: the least term that is no vocabulary.
const EXAMPLE: u32 = 6;

// A fact of which the question is asked.
fn example_of(asked: u32, word: u32) -> Triple
    ensures { result ≡ example asked word }
{
    if asked == CLASS {
        return Triple {
            subject: EXAMPLE,
            property: Term::TYPE,
            object: word,
        };
    }
    Triple {
        subject: EXAMPLE,
        property: word,
        object: EXAMPLE,
    }
}

// Whether x is among the terms from a on, below b.
fn is_found(found: &[u32], a: usize, b: usize, x: u32) -> bool
    requires { (a ≤ b) × (b ≤ length found.now) }
    ensures { Tells result (Within found.now a b x) }
{
    found[a..b].contains(&x)
}

// The answer to a question, worked out.
pub fn work_out(statements: &[u32], asked: u32, word: u32, target: u32) -> bool
    requires statements_value { is_statement_table statements.now ≡ true }
    requires target_value { asked ≡ 5 → target ≡ 0 }
    ensures { Tells result (Led (rows statements.now) asked word target) }
{
    let m = statements[0] as usize;
    let mut found = rdfs_derive::no_terms();
    let ends = rdfs_derive::find_terms(statements, m, example_of(asked, word), &mut found);
    if asked == PROPERTY {
        return is_found(&found, 0, ends.properties, target);
    }
    if asked == OBJECT_CLASS {
        return is_found(&found, ends.subject, ends.object, target);
    }
    if asked == ANY_OBJECT_CLASS {
        return ends.subject < ends.object;
    }
    is_found(&found, ends.properties, ends.subject, target)
}
