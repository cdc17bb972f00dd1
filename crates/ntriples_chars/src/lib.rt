// The sets of characters in the grammar of N-Triples (RDF 1.1 N-Triples, section 7), and of schemes.
#![tactic(auto)]

ghost use Rattle.std.specs.Prelude.{◌≡◌, ◌||◌, ◌≤◌};
ghost use Rattle.spec_ntriples.specs.Utf8.{is_scalar};
ghost use Rattle.spec_ntriples.specs.Characters.{is_one_of, codes, is_letter, is_digit, is_letter_or_digit, is_iri_char, is_string_char, is_pn_chars_base, is_pn_chars_u, is_pn_chars, hex_value, no_char, echar};

// The last code point.
pub const LAST_CODE: u32 = 0x10FFFF;

// No character: the number above it.
pub const NO_CHAR: u32 = 0x110000;

// Whether a number is a scalar value of Unicode.
pub fn is_scalar(c: u32) -> bool
    ensures { result ≡ is_scalar c }
{
    (c < 0xD800) | ((0xE000 <= c) & (c <= LAST_CODE))
}

// Whether a character is a letter of ASCII.
pub fn is_letter(c: u32) -> bool
    ensures { result ≡ is_letter c }
{
    ((b'A' as u32 <= c) & (c <= b'Z' as u32)) | ((b'a' as u32 <= c) & (c <= b'z' as u32))
}

// Whether a character is a digit.
pub fn is_digit(c: u32) -> bool
    ensures { result ≡ is_digit c }
{
    (b'0' as u32 <= c) & (c <= b'9' as u32)
}

// Whether a character is a letter or a digit.
pub fn is_letter_or_digit(c: u32) -> bool
    ensures { result ≡ is_letter_or_digit c }
{
    is_letter(c) | is_digit(c)
}

// Whether a character may stand in a scheme, behind its first.
pub fn is_scheme_char(c: u32) -> bool
    ensures { result ≡ (is_letter_or_digit c || is_one_of (codes "+-.") c) }
{
    is_letter_or_digit(c) | ((c == b'+' as u32) | ((c == b'-' as u32) | (c == b'.' as u32)))
}

// Whether a character is one of those above the space that bar an IRI.
fn is_barred(c: u32) -> bool
    ensures { result ≡ is_one_of (codes "<>\"{}|^`\\") c }
{
    (c == b'<' as u32)
        | ((c == b'>' as u32)
            | ((c == b'"' as u32)
                | ((c == b'{' as u32)
                    | ((c == b'}' as u32)
                        | ((c == b'|' as u32)
                            | ((c == b'^' as u32) | ((c == b'`' as u32) | (c == b'\\' as u32))))))))
}

// Whether a character may stand in an IRI.
pub fn is_iri_char(c: u32) -> bool
    ensures { result ≡ is_iri_char c }
{
    (0x20 < c) & !is_barred(c)
}

// Whether a character may stand in a string.
pub fn is_string_char(c: u32) -> bool
    ensures { result ≡ is_string_char c }
{
    !((c == b'"' as u32) | ((c == b'\\' as u32) | ((c == b'\n' as u32) | (c == b'\r' as u32))))
}

// Whether a character is of PN_CHARS_BASE.
fn is_pn_chars_base(c: u32) -> bool
    ensures { result ≡ is_pn_chars_base c }
{
    is_letter(c)
        | (((0x00C0 <= c) & (c <= 0x00D6))
            | (((0x00D8 <= c) & (c <= 0x00F6))
                | (((0x00F8 <= c) & (c <= 0x02FF))
                    | (((0x0370 <= c) & (c <= 0x037D))
                        | (((0x037F <= c) & (c <= 0x1FFF))
                            | (((0x200C <= c) & (c <= 0x200D))
                                | (((0x2070 <= c) & (c <= 0x218F))
                                    | (((0x2C00 <= c) & (c <= 0x2FEF))
                                        | (((0x3001 <= c) & (c <= 0xD7FF))
                                            | (((0xF900 <= c) & (c <= 0xFDCF))
                                                | (((0xFDF0 <= c) & (c <= 0xFFFD))
                                                    | ((0x10000 <= c) & (c <= 0xEFFFF)))))))))))))
}

// Whether a character is of PN_CHARS_U.
pub fn is_pn_chars_u(c: u32) -> bool
    ensures { result ≡ is_pn_chars_u c }
{
    is_pn_chars_base(c) | ((c == b'_' as u32) | (c == b':' as u32))
}

// Whether a character is of PN_CHARS.
pub fn is_pn_chars(c: u32) -> bool
    ensures { result ≡ is_pn_chars c }
{
    is_pn_chars_u(c)
        | ((c == b'-' as u32)
            | (is_digit(c)
                | ((c == 0x00B7)
                    | (((0x0300 <= c) & (c <= 0x036F)) | ((0x203F <= c) & (c <= 0x2040))))))
}

// The value of a hexadecimal digit, 16 where a character is none: the number that the definition of that name gives.
pub fn hex_value(c: u32) -> u32
    ensures value { result ≡ hex_value c }
    ensures upper_bound { result ≤ 16 }
{
    if (b'0' as u32 <= c) & (c <= b'9' as u32) {
        return c - b'0' as u32;
    }
    if (b'A' as u32 <= c) & (c <= b'F' as u32) {
        return c - b'A' as u32 + 10;
    }
    if (b'a' as u32 <= c) & (c <= b'f' as u32) {
        return c - b'a' as u32 + 10;
    }
    16
}

// The character that a letter behind a backslash stands for, NO_CHAR for any other: the number that the definition of that name gives.
pub fn echar(c: u32) -> u32
    ensures { result ≡ echar c }
{
    if c == b't' as u32 {
        return 0x09;
    }
    if c == b'b' as u32 {
        return 0x08;
    }
    if c == b'n' as u32 {
        return 0x0A;
    }
    if c == b'r' as u32 {
        return 0x0D;
    }
    if c == b'f' as u32 {
        return 0x0C;
    }
    if (c == b'"' as u32) | ((c == b'\'' as u32) | (c == b'\\' as u32)) {
        return c;
    }
    NO_CHAR
}
