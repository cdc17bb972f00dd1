// What a fact has and gives, by what its property or its class leads to. Each answer is worked out once for each property or class that is
// met, and remembered.
#![tactic(auto)]

ghost use Rattle.std.specs.Prelude.{◌≡◌, true};
ghost use mathlib.Core.List.{[], Memᴰ};
ghost use Rattle.spec.specs.Tables.{rows, is_statement_table};
ghost use Rattle.spec.specs.computed.Carried.{properties, subject_classes, object_classes};
ghost use Rattle.table.specs.inside.Bounds.{Tells};
ghost use Rattle.rdfs_relevance.specs.inside.Targets.{Led, Remembers};

use rdfs_relevance::{
    ANY_OBJECT_CLASS, CLASS, OBJECT_CLASS, PROPERTY, SUBJECT_CLASS, answer_at, first_place, is_at,
    remember, second_place,
};
use spec::Triple;
use terms::Term;

// The answer to a question that is not remembered at its first place.
fn leads_otherwise(
    statements: &[u32],
    memory: &mut [u32],
    asked: u32,
    word: u32,
    target: u32,
) -> bool
    requires statements_value { is_statement_table statements.now ≡ true }
    requires remembers { Remembers (rows statements.now) memory.old }
    requires not_asked { ¬ (asked ≡ 0) × (asked ≡ 5 → target ≡ 0) }
    ensures answer { Tells result (Led (rows statements.now) asked word target) }
    ensures memory { Remembers (rows statements.now) memory.new }
{
    let second = second_place(asked, word, target);
    if is_at(memory, second, asked, word, target) {
        return answer_at(memory, second);
    }
    let answer = rdfs_answer::work_out(statements, asked, word, target);
    let first = first_place(asked, word, target);
    let at = first * 4;
    if memory[at + 1] == 0 {
        remember(memory, first, asked, word, target, answer);
    } else {
        remember(memory, second, asked, word, target, answer);
    }
    answer
}

// The answer to a question: the one remembered, or worked out and remembered.
pub fn leads(statements: &[u32], memory: &mut [u32], asked: u32, word: u32, target: u32) -> bool
    requires statements_value { is_statement_table statements.now ≡ true }
    requires remembers { Remembers (rows statements.now) memory.old }
    requires not_asked { ¬ (asked ≡ 0) × (asked ≡ 5 → target ≡ 0) }
    ensures answer { Tells result (Led (rows statements.now) asked word target) }
    ensures memory { Remembers (rows statements.now) memory.new }
{
    let first = first_place(asked, word, target);
    if is_at(memory, first, asked, word, target) {
        return answer_at(memory, first);
    }
    leads_otherwise(statements, memory, asked, word, target)
}

// Whether a fact has a property, or one that leads to it.
pub fn has_property(statements: &[u32], memory: &mut [u32], fact: Triple, property: u32) -> bool
    requires statements_value { is_statement_table statements.now ≡ true }
    requires remembers { Remembers (rows statements.now) memory.old }
    ensures answer { Tells result (Memᴰ property (properties (rows statements.now) fact)) }
    ensures memory { Remembers (rows statements.now) memory.new }
{
    leads(statements, memory, PROPERTY, fact.property, property)
}

// Whether a fact gives its subject a class.
pub fn gives_subject(statements: &[u32], memory: &mut [u32], fact: Triple, class: u32) -> bool
    requires statements_value { is_statement_table statements.now ≡ true }
    requires remembers { Remembers (rows statements.now) memory.old }
    ensures answer { Tells result (Memᴰ class (subject_classes (rows statements.now) fact)) }
    ensures memory { Remembers (rows statements.now) memory.new }
{
    if fact.property == Term::TYPE {
        return leads(statements, memory, CLASS, fact.object, class);
    }
    leads(statements, memory, SUBJECT_CLASS, fact.property, class)
}

// Whether a fact gives its object a class. It gives a literal none.
pub fn gives_object(statements: &[u32], memory: &mut [u32], fact: Triple, class: u32) -> bool
    requires statements_value { is_statement_table statements.now ≡ true }
    requires remembers { Remembers (rows statements.now) memory.old }
    ensures answer { Tells result (Memᴰ class (object_classes (rows statements.now) fact)) }
    ensures memory { Remembers (rows statements.now) memory.new }
{
    let object = Term { word: fact.object };
    if object.is_literal() {
        return false;
    }
    leads(statements, memory, OBJECT_CLASS, fact.property, class)
}

// Whether a fact gives its object a class at all.
pub fn gives_any(statements: &[u32], memory: &mut [u32], fact: Triple) -> bool
    requires statements_value { is_statement_table statements.now ≡ true }
    requires remembers { Remembers (rows statements.now) memory.old }
    ensures answer { Tells result (¬ (object_classes (rows statements.now) fact ≡ [])) }
    ensures memory { Remembers (rows statements.now) memory.new }
{
    let object = Term { word: fact.object };
    if object.is_literal() {
        return false;
    }
    leads(statements, memory, ANY_OBJECT_CLASS, fact.property, 0)
}
