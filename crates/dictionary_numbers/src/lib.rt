// The next numbers of a dictionary's kinds, while entries are added or asked.
#![tactic(auto)]

ghost use Rattle.std.specs.Prelude.{◌≡◌, ◌<◌, ◌^◌};
ghost use Rattle.dictionary_numbers.specs.inside.Numbers.{number_of, raised};

use dictionary_bytes::Filled;

// How many numbers a kind has, 0 included: all are below it.
pub const NUMBERS: u32 = 1073741824;

// The next number of a kind.
pub fn number_of(f: Filled, kind: u32) -> u32
    ensures { result ≡ number_of f kind }
{
    if kind == 0 {
        return f.uris;
    }
    if kind == 1 {
        return f.blanks;
    }
    f.literals
}

// How far a dictionary is filled with a text of a kind more, up to an end.
pub fn filled_on(f: Filled, kind: u32, end: usize) -> Filled
    requires { number_of f kind < 2 ^ 30 }
    ensures { result ≡ raised f kind end }
{
    if kind == 0 {
        return Filled {
            end,
            uris: f.uris + 1,
            ..f
        };
    }
    if kind == 1 {
        return Filled {
            end,
            blanks: f.blanks + 1,
            ..f
        };
    }
    Filled {
        end,
        literals: f.literals + 1,
        ..f
    }
}
