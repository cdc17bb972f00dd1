// The kind of a term that stands in a line, and the vocabulary URI that it is.
#![tactic(auto)]

ghost use Rattle.std.specs.Prelude.{◌≡◌};
ghost use Rattle.spec_ntriples.specs.Texts.{Text};
ghost use Rattle.spec_ntriples.specs.Dictionary.{vocabulary_of};
ghost use Rattle.ntriples_bytes.specs.inside.Places.{HasText};
ghost use Rattle.ntriples_text.specs.inside.Tokens.{IsToken};

use ntriples_bytes::char_at;
use ntriples_text_same::is_text;

const QUOTE: u32 = 0x22;

const UNDERSCORE: u32 = 0x5F;

// The kind of a term, by the number that texts and entries have for it: 0 URI, 1 blank, 2 literal.
pub fn kind_of(line: &[u8], from: usize, end: usize) -> u32
    requires { IsToken line.now from end }
    ensures { (t : Text) → HasText line.now from end t → result ≡ t.kind }
{
    match char_at(line, from).code {
        QUOTE => 2,
        UNDERSCORE => 1,
        _ => 0,
    }
}

// The vocabulary URI that a term is, from 1 to 5, and 0 where it is none: the number that the definition of that name gives.
pub fn vocabulary_of(line: &[u8], from: usize, end: usize) -> u32
    requires { IsToken line.now from end }
    ensures { (t : Text) → HasText line.now from end t → result ≡ vocabulary_of t.bytes }
{
    let rdf_type = b"<http://www.w3.org/1999/02/22-rdf-syntax-ns#type>";
    if is_text(line, from, end, rdf_type, 0, rdf_type.len()) {
        return 1;
    }
    let sub_class = b"<http://www.w3.org/2000/01/rdf-schema#subClassOf>";
    if is_text(line, from, end, sub_class, 0, sub_class.len()) {
        return 2;
    }
    let sub_property = b"<http://www.w3.org/2000/01/rdf-schema#subPropertyOf>";
    if is_text(line, from, end, sub_property, 0, sub_property.len()) {
        return 3;
    }
    let domain = b"<http://www.w3.org/2000/01/rdf-schema#domain>";
    if is_text(line, from, end, domain, 0, domain.len()) {
        return 4;
    }
    let range = b"<http://www.w3.org/2000/01/rdf-schema#range>";
    if is_text(line, from, end, range, 0, range.len()) {
        return 5;
    }
    0
}
