// The three words of a triple: written as a row, and whether each is there.
#![tactic(auto)]

ghost use Rattle.std.specs.Prelude.{◌≡◌, [], ◌∷◌, ◌+◌, ◌*◌, ◌≤◌, length};
ghost use Rattle.std.proofs.lemmas.List.Edits.{sets};
ghost use Rattle.ntriples_words.specs.inside.Named.{is_named};

use spec::Triple;

// Writes a triple as row i.
pub fn put_row(terms: &mut [u32], i: usize, t: Triple)
    requires { i * 3 + 3 ≤ length terms.old }
    ensures { terms.new ≡ sets terms.old (i * 3) (t.subject ∷ t.property ∷ t.object ∷ []) }
{
    let at = i * 3;
    terms[at] = t.subject;
    terms[at + 1] = t.property;
    terms[at + 2] = t.object;
}

// Whether no word of a row is 0.
#[tactic(auto, unfolding(crate::specs::inside::Named::is_named))]
pub fn is_named(row: Triple) -> bool
    ensures { result ≡ is_named row }
{
    (0 < row.subject) & ((0 < row.property) & (0 < row.object))
}
