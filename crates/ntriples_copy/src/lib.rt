// Lent bytes written: texts copied from other bytes, those of the vocabulary, and zeros behind them.
#![tactic(auto)]

ghost use Rattle.std.specs.Prelude.{◌≡◌, ◌+◌, ◌-◌, ◌≤◌, length, take, drop, replicate};
ghost use Rattle.std.proofs.lemmas.List.Edits.{sets};
ghost use Rattle.ntriples_copy.specs.inside.Vocabulary.{vocabulary_text};

// Copies n bytes, from one index on, to another. One by one: with `copy_from_slice` the exported library would need `memmove` from outside.
pub fn copy_bytes(bytes: &[u8], from: usize, n: usize, out: &mut [u8], at: usize)
    requires n_in_bounds { from + n ≤ length bytes.now }
    requires n_in_bounds_2 { at + n ≤ length out.old }
    ensures { out.new ≡ sets out.old at (take n (drop from bytes.now)) }
{
    for k in 0..n {
        out[at + k] = bytes[from + k];
    }
}

// The text of a vocabulary URI.
fn vocabulary_text(term: u32) -> &'static [u8]
    requires { (1 ≤ term) × (term ≤ 5) }
    ensures { result.now ≡ vocabulary_text term }
{
    match term {
        1 => b"<http://www.w3.org/1999/02/22-rdf-syntax-ns#type>",
        2 => b"<http://www.w3.org/2000/01/rdf-schema#subClassOf>",
        3 => b"<http://www.w3.org/2000/01/rdf-schema#subPropertyOf>",
        4 => b"<http://www.w3.org/2000/01/rdf-schema#domain>",
        _ => b"<http://www.w3.org/2000/01/rdf-schema#range>",
    }
}

// The length of a vocabulary URI's text.
pub fn vocabulary_length(term: u32) -> usize
    requires { (1 ≤ term) × (term ≤ 5) }
    ensures { result ≡ length (vocabulary_text term) }
{
    vocabulary_text(term).len()
}

// Copies the text of a vocabulary URI to an index.
pub fn write_vocabulary(term: u32, out: &mut [u8], at: usize)
    requires le_term { (1 ≤ term) × (term ≤ 5) }
    requires term_in_bounds { at + length (vocabulary_text term) ≤ length out.old }
    ensures { out.new ≡ sets out.old at (vocabulary_text term) }
{
    let text = vocabulary_text(term);
    out[at..at + text.len()].copy_from_slice(text);
}

// Sets the bytes from an index on to zero.
pub fn clear_from(out: &mut [u8], at: usize)
    requires { at ≤ length out.old }
    ensures { out.new ≡ sets out.old at (replicate (length out.old - at) 0) }
{
    out[at..].fill(0);
}
