// The lines in which programs with stored output state their cases: where a part of a line ends, and the words that it has.
#![tactic(auto)]

ghost use Rattle.std.specs.Prelude.{◌≤◌, length};

// Where a byte comes first, from a place on: the end of the text, if it does not come.
pub fn find(text: &[u8], from: usize, byte: u8) -> usize
    requires { from ≤ length text.now }
    ensures lower_bound { from ≤ result }
    ensures upper_bound { result ≤ length text.now }
{
    match text[from..].iter().position(|b| *b == byte) {
        Some(i) => from + i,
        None => text.len(),
    }
}

// Reads words, a space before each, as many as there is room for: returns how many. A number is written in decimal, and v, b or l before it
// makes it a variable, a blank or a literal. Only their number is promised.
pub fn read_words(text: &[u8], words: &mut [u32]) -> usize
    ensures { result ≤ length words.new }
{
    let mut n = 0;
    for byte in text {
        if *byte == b' ' {
            if words.len() <= n {
                return n;
            }
            words[n] = 0;
            n += 1;
            continue;
        }
        if 0 < n {
            words[n - 1] = longer(words[n - 1], *byte);
        }
    }
    n
}

// A word with one more byte of its text: the letter of a kind, or a digit.
fn longer(word: u32, byte: u8) -> u32 {
    match byte {
        b'v' => 0xC0000000,
        b'l' => 0x80000000,
        b'b' => 0x40000000,
        b'0'..=b'9' => {
            let digit = byte - b'0';
            let number = (word % 0x40000000) as u64 * 10 + digit as u64;
            word / 0x40000000 * 0x40000000 + (number % 0x40000000) as u32
        }
        _ => word,
    }
}
