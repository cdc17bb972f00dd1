// Bytes of IRIs and strings that stand for themselves in canonical text, as most do.
#![tactic(auto)]

ghost use Rattle.std.specs.Prelude.{◌≡◌};
ghost use Rattle.ntriples_own.specs.inside.Own.{is_but, is_own};

use ntriples_cursor::Mode;

// Whether a byte inside an IRI or a string stands for itself: a character of ASCII that neither closes it nor begins an escape.
pub fn is_own(mode: Mode, b: u8) -> bool
    ensures { result ≡ is_own mode b }
{
    match mode {
        Mode::Iri => is_but(b'>', b),
        Mode::Quoted => is_but(b'"', b),
        Mode::Term => false,
        Mode::Label => false,
        Mode::Suffix => false,
        Mode::Tag => false,
    }
}

// Whether a byte is a character of ASCII, and neither a mark nor a backslash.
fn is_but(mark: u8, b: u8) -> bool
    ensures { result ≡ is_but mark b }
{
    (b < 0x80) & ((b != mark) & (b != b'\\'))
}
