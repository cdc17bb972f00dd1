// The characters of IRIs and strings, escapes resolved, in lines whose terms were found.
ghost use Rattle.std.specs.Prelude.{List, ℕ, ◌≤◌};
ghost use Rattle.spec_ntriples.specs.computed.Terminals.{State, Step, slash, digits, outside};
ghost use Rattle.ntriples_cursor.specs.inside.Readers.{IsReader, Reads, InState, NotClosed, AtChar, Gives};

use ntriples_bytes::{Mark, char_at};
use ntriples_chars::{echar, hex_value};

const BACKSLASH: u32 = 0x5C;

const LETTER_U: u32 = 0x75;

const CAPITAL_U: u32 = 0x55;

// The character whose number has so many hexadecimal digits from an index on.
fn number_char(line: &[u8], at: usize, count: u32) -> Mark
    requires in_state { InState line.now at (digits count 0) }
    requires le_count { (4 ≤ count) × (count ≤ 8) }
    ensures { (step : State → ℕ → Step) (close : ℕ) (ds rest : List ℕ) → IsReader step close → Reads line.now at step (digits count 0) ds rest → Gives line.now at 0 step ds rest result }
{
    let mut value: u32 = 0;
    let mut place = at;
    for _ in 0..count {
        let m = char_at(line, place);
        value = value * 16 + hex_value(m.code);
        place = m.next;
    }
    Mark {
        code: value,
        next: place,
    }
}

// The character of an escape whose backslash stands before an index.
fn escape_at(line: &[u8], at: usize) -> Mark
    requires { InState line.now at slash }
    ensures { (step : State → ℕ → Step) (close : ℕ) (ds rest : List ℕ) → IsReader step close → Reads line.now at step slash ds rest → Gives line.now at 1 step ds rest result }
{
    let m = char_at(line, at);
    if m.code == LETTER_U {
        return number_char(line, m.next, 4);
    }
    if m.code == CAPITAL_U {
        return number_char(line, m.next, 8);
    }
    Mark {
        code: echar(m.code),
        next: m.next,
    }
}

// The character of an IRI or a string at an index, as it stands or by an escape.
pub fn resolved_at(line: &[u8], at: usize) -> Mark
    requires { AtChar line.now at }
    ensures { (step : State → ℕ → Step) (close : ℕ) (ds rest : List ℕ) → IsReader step close → Reads line.now at step outside ds rest → NotClosed line.now at close → Gives line.now at 0 step ds rest result }
{
    let m = char_at(line, at);
    if m.code == BACKSLASH {
        return escape_at(line, m.next);
    }
    m
}
