// Characters in bytes of UTF-8.
#![tactic(auto)]

ghost use Rattle.std.specs.Prelude.{◌≡◌, List, ◌∷◌, ℕ, ◌<◌, length, get_or};
ghost use Rattle.spec_ntriples.specs.computed.Decoded.{decode, decode_from, first_byte};
ghost use Rattle.ntriples_bytes.specs.inside.Places.{Utf8From, Marks};
ghost use Rattle.ntriples_bytes.specs.inside.Whole.{are_chars, are_chars_from};

// The first byte behind those of ASCII.
pub const BEHIND_ASCII: u8 = 0x80;

// The bytes behind the first of a character, unless that asks for less.
const LOWEST: u8 = 0x80;

const HIGHEST: u8 = 0xBF;

// The character that stands at an index, and the index behind it.
#[derive(Clone, Copy)]
pub struct Mark {
    pub code: u32,
    pub next: usize,
}

// What an open character leaves due: how many bytes, and the range of the next.
#[derive(Clone, Copy)]
pub struct Due {
    pub left: u8,
    pub low: u8,
    pub high: u8,
}

// ---- whether bytes are characters

// What the first byte of a character leaves due; nothing, where no character begins with it.
fn first_byte(b: u8) -> Option<Due>
    ensures { (bs : List ℕ) → are_chars (decode_from bs (first_byte b)) ≡ are_chars_from bs result }
{
    let (left, low, high) = match b {
        0x00..=0x7F => (0, LOWEST, HIGHEST),
        0xC2..=0xDF => (1, LOWEST, HIGHEST),
        0xE0 => (2, 0xA0, HIGHEST),
        0xED => (2, LOWEST, 0x9F),
        0xE1..=0xEF => (2, LOWEST, HIGHEST),
        0xF0 => (3, 0x90, HIGHEST),
        0xF1..=0xF3 => (3, LOWEST, HIGHEST),
        0xF4 => (3, LOWEST, 0x8F),
        _ => return None,
    };
    Some(Due { left, low, high })
}

// What a byte leaves due behind an open character; nothing, where it breaks that.
fn next_byte(due: Due, b: u8) -> Option<Due>
    ensures { (bs : List ℕ) → are_chars_from (b ∷ bs) (Some due) ≡ are_chars_from bs result }
{
    if due.left == 0 {
        return first_byte(b);
    }
    if b < due.low || due.high < b {
        return None;
    }
    Some(Due {
        left: due.left - 1,
        low: LOWEST,
        high: HIGHEST,
    })
}

// Whether bytes are UTF-8.
pub fn is_utf8(bytes: &[u8]) -> bool
    ensures { result ≡ are_chars (decode bytes.now) }
{
    let mut due = Due {
        left: 0,
        low: LOWEST,
        high: HIGHEST,
    };
    for b in bytes {
        if (due.left == 0) & (*b < BEHIND_ASCII) {
            continue;
        }
        let Some(next) = next_byte(due, *b) else {
            return false;
        };
        due = next;
    }
    due.left == 0
}

// ---- the character at an index

// The byte at an index.
fn byte_at(bytes: &[u8], at: usize) -> u32
    requires { at < length bytes.now }
    ensures value { result ≡ get_or bytes.now at 0 }
    ensures upper_bound { result < 256 }
{
    u32::from(bytes[at])
}

// The character at an index of bytes that are UTF-8 from there on.
pub fn char_at(bytes: &[u8], at: usize) -> Mark
    requires utf8from { Utf8From bytes.now at }
    requires at_in_bounds { at < length bytes.now }
    ensures { Marks bytes.now at result }
{
    let b = byte_at(bytes, at);
    if b < 0x80 {
        return Mark {
            code: b,
            next: at + 1,
        };
    }
    let c = byte_at(bytes, at + 1) % 64;
    if b < 0xE0 {
        return Mark {
            code: b % 32 * 64 + c,
            next: at + 2,
        };
    }
    let d = byte_at(bytes, at + 2) % 64;
    if b < 0xF0 {
        return Mark {
            code: (b % 16 * 64 + c) * 64 + d,
            next: at + 3,
        };
    }
    let e = byte_at(bytes, at + 3) % 64;
    Mark {
        code: ((b % 8 * 64 + c) * 64 + d) * 64 + e,
        next: at + 4,
    }
}
