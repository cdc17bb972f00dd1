// Terms and triples as words (document 01, "Terms and triples"): made, and told apart.
#![tactic(auto)]

ghost use Rattle.std.specs.Prelude.{◌≡◌, ◌+◌, ◌*◌, ◌^◌, ◌<◌};
ghost use Rattle.spec.specs.Terms.{kind, number, is_uri, is_blank, is_literal, is_variable, is_vocabulary, is_resource, is_triple, is_statement, is_class, is_property, are_sides_allowed, is_allowed_statement, is_allowed_fact};

use spec::Triple;

// A term: a URI, a blank node, a literal or a variable, as one word.
#[derive(Clone, Copy)]
pub struct Term {
    pub word: u32,
}

impl Term {
    // The kinds of terms.
    pub const URI: u32 = 0;

    pub const BLANK: u32 = 1;

    pub const LITERAL: u32 = 2;

    pub const VARIABLE: u32 = 3;

    // The vocabulary, as words.
    pub const TYPE: u32 = 1;

    pub const SUB_CLASS_OF: u32 = 2;

    pub const SUB_PROPERTY_OF: u32 = 3;

    pub const DOMAIN: u32 = 4;

    pub const RANGE: u32 = 5;

    // How many numbers a kind has, and how many of them are variables.
    pub const NUMBERS: u32 = 1073741824;

    pub const VARIABLES: u32 = 16;

    // The term of a kind and a number.
    pub fn make(kind: u32, number: u32) -> Term
        requires { (kind < 4) × (number < 2 ^ 30) }
        ensures { result.word ≡ kind * 2 ^ 30 + number }
    {
        Term {
            word: kind * Term::NUMBERS + number,
        }
    }

    // The kind: bits 31 and 30.
    pub fn kind(self) -> u32
        ensures { result ≡ kind self.word }
    {
        self.word / Term::NUMBERS
    }

    // The number: the low 30 bits.
    pub fn number(self) -> u32
        ensures { result ≡ number self.word }
    {
        self.word % Term::NUMBERS
    }

    // Whether it is a URI.
    pub fn is_uri(self) -> bool
        ensures { result ≡ is_uri self.word }
    {
        (self.kind() == Term::URI) & (0 < self.number())
    }

    // Whether it is a blank node.
    pub fn is_blank(self) -> bool
        ensures { result ≡ is_blank self.word }
    {
        (self.kind() == Term::BLANK) & (0 < self.number())
    }

    // Whether it is a literal.
    pub fn is_literal(self) -> bool
        ensures { result ≡ is_literal self.word }
    {
        (self.kind() == Term::LITERAL) & (0 < self.number())
    }

    // Whether it is a variable.
    pub fn is_variable(self) -> bool
        ensures { result ≡ is_variable self.word }
    {
        (self.kind() == Term::VARIABLE) & (self.number() < Term::VARIABLES)
    }

    // Whether it is a URI of the vocabulary.
    pub fn is_vocabulary(self) -> bool
        ensures { result ≡ is_vocabulary self.word }
    {
        (Term::TYPE <= self.word) & (self.word <= Term::RANGE)
    }

    // Whether it is a URI or blank.
    pub fn is_resource(self) -> bool
        ensures { result ≡ is_resource self.word }
    {
        self.is_uri() | self.is_blank()
    }

    // Whether it may be a class of a statement.
    pub fn is_class(self) -> bool
        ensures { result ≡ is_class self.word }
    {
        self.is_resource() & !self.is_vocabulary()
    }

    // Whether it may be a property on a side of a statement.
    pub fn is_property(self) -> bool
        ensures { result ≡ is_property self.word }
    {
        self.is_uri() & !self.is_vocabulary()
    }
}

// Whether each of its words may stand where it stands.
pub fn is_triple(t: Triple) -> bool
    ensures { result ≡ is_triple t }
{
    let subject = Term { word: t.subject };
    let property = Term { word: t.property };
    let object = Term { word: t.object };
    subject.is_resource() & property.is_uri() & (object.is_resource() | object.is_literal())
}

// Whether its property makes it a statement.
pub fn is_statement(t: Triple) -> bool
    ensures { result ≡ is_statement t }
{
    (Term::SUB_CLASS_OF <= t.property) & (t.property <= Term::RANGE)
}

// Whether its sides are those that a statement of its property may have.
pub fn are_sides_allowed(t: Triple) -> bool
    ensures { result ≡ are_sides_allowed t }
{
    let subject = Term { word: t.subject };
    let object = Term { word: t.object };
    if t.property == Term::SUB_CLASS_OF {
        return subject.is_class() & object.is_class();
    }
    if t.property == Term::SUB_PROPERTY_OF {
        return subject.is_property() & object.is_property();
    }
    subject.is_property() & object.is_class()
}

// Whether it may stand in the statements.
pub fn is_allowed_statement(t: Triple) -> bool
    ensures { result ≡ is_allowed_statement t }
{
    is_triple(t) & (is_statement(t) & are_sides_allowed(t))
}

// Whether it may stand in the facts and the kept facts.
pub fn is_allowed_fact(t: Triple) -> bool
    ensures { result ≡ is_allowed_fact t }
{
    is_triple(t) & !is_statement(t)
}
