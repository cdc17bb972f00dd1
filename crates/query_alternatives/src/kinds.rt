// Which alternatives qualify for an atom. An alternative is a triple of kind, source and target.
ghost use Rattle.std.specs.Prelude.{◌≡◌};
ghost use Rattle.spec.specs.Questions.{admits};
ghost use Rattle.query_alternatives.specs.inside.Putting.{alternative_by, admits_target, qualifies};

use spec::Triple;
use terms::Term;

// The kinds of alternatives, save that of an explicit triple as it is, which is 0. They are words of an output, and so numbers.
pub const BY_SUBCLASS: u32 = 1;

pub const BY_DOMAIN: u32 = 2;

pub const BY_RANGE: u32 = 3;

const BY_SUBPROPERTY: u32 = 4;

// Whether a word of an atom admits a term: it is the term or a variable.
fn admits(word: u32, term: u32) -> bool
    ensures { result ≡ admits word term }
{
    let read = Term { word: word };
    read.is_variable() | (word == term)
}

// Whether an atom admits the target of an alternative: a property for kind 4, else a class.
fn admits_target(atom: Triple, alternative: Triple) -> bool
    ensures { result ≡ admits_target atom alternative }
{
    if alternative.subject == BY_SUBPROPERTY {
        return admits(atom.property, alternative.object);
    }
    admits(atom.property, Term::TYPE) & admits(atom.object, alternative.object)
}

// Whether an alternative qualifies for an atom: it is admitted and, save for kinds 2 and 3, its source and its target differ.
pub fn qualifies(atom: Triple, alternative: Triple) -> bool
    ensures { result ≡ qualifies atom alternative }
{
    admits_target(atom, alternative)
        & ((alternative.subject == BY_DOMAIN)
            | ((alternative.subject == BY_RANGE) | (alternative.property != alternative.object)))
}

// The alternative with a source that a row carried by a made-up fact comes to.
pub fn alternative_by(source: u32, row: Triple) -> Triple
    ensures { result ≡ alternative_by source row }
{
    if row.property == Term::TYPE {
        return Triple {
            subject: row.subject,
            property: source,
            object: row.object,
        };
    }
    Triple {
        subject: BY_SUBPROPERTY,
        property: source,
        object: row.property,
    }
}
