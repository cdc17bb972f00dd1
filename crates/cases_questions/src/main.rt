// Runs the cases of documents 01 and 02 about questions, by both ways: prints each reply, and every word of the output, which
// was all 7 before the call.
#![tactic(auto)]

ghost use Rattle.std.specs.Prelude.{◌≤◌};

use cases_lines::{find, read_words};
use cases_printing::print_replied;
use cases_shelf::{FACTS, KEPT, STATEMENTS};
use std::io;

// A fact about a literal.
const LITERAL_FACTS: [u32; 4] = [1, 32, 20, 0x80000001];

// What it carries under the same statements.
const LITERAL_KEPT: [u32; 10] = [3, 32, 1, 17, 32, 1, 18, 32, 20, 0x80000001];

// A fact whose object is a blank.
const BLANK_FACTS: [u32; 4] = [1, 32, 20, 0x40000001];

// What it carries: by the range of 20 the blank is typed.
const BLANK_KEPT: [u32; 19] = [
    6, 32, 1, 17, 32, 1, 18, 32, 20, 0x40000001, 0x40000001, 1, 16, 0x40000001, 1, 17, 0x40000001,
    1, 18,
];

// Two subproperty steps.
const STEPS: [u32; 7] = [2, 19, 3, 20, 20, 3, 21];

// A fact of the lowest property.
const STEPS_FACTS: [u32; 4] = [1, 32, 19, 33];

// What it carries: the same of each property above.
const STEPS_KEPT: [u32; 10] = [3, 32, 19, 33, 32, 20, 33, 32, 21, 33];

// A table without a row.
const NONE: [u32; 1] = [0];

// Two classes under each other.
const LOOP: [u32; 7] = [2, 16, 2, 17, 17, 2, 16];

// A class under itself, between two others.
const OWN: [u32; 10] = [3, 16, 2, 17, 17, 2, 17, 17, 2, 18];

// Two ways from 16 to 19.
const DIAMOND: [u32; 13] = [4, 16, 2, 17, 16, 2, 18, 17, 2, 19, 18, 2, 19];

// A blank between two classes.
const BLANK_BETWEEN: [u32; 7] = [2, 16, 2, 0x40000001, 0x40000001, 2, 18];

// 17 is class and property.
const MIXED: [u32; 7] = [2, 16, 2, 17, 17, 3, 18];

// A domain under a class.
const DOMAIN_BELOW: [u32; 7] = [2, 17, 2, 18, 20, 4, 17];

// The facts of the worked example, and one that names the property 2.
const NAMING_FACTS: [u32; 10] = [3, 32, 1, 16, 32, 19, 33, 40, 24, 2];

// What they carry.
const NAMING_KEPT: [u32; 28] = [
    9, 32, 1, 16, 32, 1, 17, 32, 1, 18, 32, 19, 33, 32, 20, 33, 33, 1, 16, 33, 1, 17, 33, 1, 18,
    40, 24, 2,
];

fn main(rt: HostRuntime) -> io::Result<()> {
    example_cases(&rt)?;
    carried(&rt)?;
    joined(&rt)?;
    explicit(&rt)?;
    lent(&rt)
}

// To the worked example. Questions that are answered; that are refused whatever well-formed tables hold, all but the last by 6; and rows
// that fit: two rows fit two and do not fit one, and two of eight words fit 16 words and not 15.
fn example_cases(rt: &impl Print) -> io::Result<()> {
    example(
        rt,
        b"v0 1 17: 8 1 1 v0 1 17 v0\n\
        v0 2 v1: 8 1 2 v0 2 v1 v0 v1\n\
        a head variable twice: 8 1 2 v0 1 17 v0 v0\n\
        v0 v1 17: 8 1 2 v0 v1 17 v1 v0\n\
        32 v0 33: 8 1 1 32 v0 33 v0\n\
        v0 v1 v0: 8 1 1 v0 v1 v0 v0\n\
        three atoms: 8 3 3 v0 19 v1 v1 1 v2 v2 2 18 v0 v1 v2\n\
        six atoms: 8 6 1 v0 1 17 v0 1 17 v0 1 17 v0 1 17 v0 1 17 v0 1 17 v0\n",
    )?;
    example(
        rt,
        b"seven atoms: 8 7 1 v0 1 17 v0 1 17 v0 1 17 v0 1 17 v0 1 17 v0 1 17 v0 1 17 v0\n\
        no atom: 8 0 1 v0\n\
        no head: 8 1 0 v0 1 17\n\
        nine head words: 8 1 9 v0 1 17 v0 v0 v0 v0 v0 v0 v0 v0 v0\n\
        a word too many: 8 1 1 v0 1 17 v0 v0\n\
        variable 16: 8 1 1 v16 1 17 v16\n\
        the word 0: 8 1 1 v0 1 0 v0\n\
        a blank: 8 1 1 b1 1 v0 v0\n\
        a literal subject: 8 1 1 l1 1 v0 v0\n\
        a literal property: 8 1 1 v0 l1 17 v0\n\
        a blank, and a head variable in no atom: 8 1 1 v0 1 b1 v1\n\
        a head variable in no atom: 8 1 1 v0 1 17 v1\n",
    )?;
    example(
        rt,
        b"two rows in two words: 2 1 1 v0 1 17 v0\n\
        two rows in one word: 1 1 1 v0 1 17 v0\n\
        eight head words: 16 1 8 v0 1 17 v0 v0 v0 v0 v0 v0 v0 v0\n\
        eight head words in 15: 15 1 8 v0 1 17 v0 v0 v0 v0 v0 v0 v0 v0\n",
    )
}

// A literal is matched as an object, and has no type. A blank has the types that a range gives it, and is given in answers. A fact holds of
// every property that subproperty steps lead to.
fn carried(rt: &impl Print) -> io::Result<()> {
    cases(
        rt,
        b"a literal: 8 1 1 v0 20 l1 v0\n\
        what has a type: 8 1 2 v0 1 v1 v0 v1\n",
        &STATEMENTS,
        &LITERAL_FACTS,
        &LITERAL_KEPT,
    )?;
    cases(
        rt,
        b"a blank in a class: 8 1 1 v0 1 17 v0\n\
        types of a blank: 16 1 2 v0 1 v1 v0 v1\n",
        &STATEMENTS,
        &BLANK_FACTS,
        &BLANK_KEPT,
    )?;
    cases(
        rt,
        b"two subproperty steps: 8 1 1 32 v0 33 v0\n\
        the highest property: 8 1 1 v0 21 33 v0\n",
        &STEPS,
        &STEPS_FACTS,
        &STEPS_KEPT,
    )
}

// Subclasses and subproperties match a pair that one or more steps join; in 16 2 18 both sides of a pair are known.
fn joined(rt: &impl Print) -> io::Result<()> {
    example(
        rt,
        b"v0 2 18: 8 1 1 v0 2 18 v0\n\
        16 2 18, v0 1 16: 8 2 1 16 2 18 v0 1 16 v0\n\
        16 v0 v1: 8 1 2 16 v0 v1 v0 v1\n\
        two pairs: 8 2 3 v0 2 v1 v1 2 v2 v0 v1 v2\n\
        v0 2 v0: 8 1 1 v0 2 v0 v0\n",
    )?;
    stated(
        rt,
        b"a loop: 8 1 2 v0 2 v1 v0 v1\n\
        a loop, v0 2 v0: 8 1 1 v0 2 v0 v0\n",
        &LOOP,
    )?;
    stated(
        rt,
        b"a class under itself: 8 1 2 v0 2 v1 v0 v1\n\
        a class under itself, v0 2 v0: 8 1 1 v0 2 v0 v0\n",
        &OWN,
    )?;
    stated(rt, b"a blank class: 8 1 1 16 2 v0 v0\n", &BLANK_BETWEEN)?;
    stated(rt, b"v0 3 v1: 8 1 2 v0 3 v1 v0 v1\n", &STEPS)
}

// A pair that two ways join is one row. Steps of 2 and of 3 do not mix, and a domain is not inherited.
fn explicit(rt: &impl Print) -> io::Result<()> {
    stated(
        rt,
        b"a diamond in three words: 3 1 1 16 2 v0 v0\n\
        a diamond in two words: 2 1 1 16 2 v0 v0\n",
        &DIAMOND,
    )?;
    stated(
        rt,
        b"class and property, v0 v1 18: 8 1 2 v0 v1 18 v1 v0\n\
        class and property, 16 v0 v1: 8 1 2 16 v0 v1 v0 v1\n",
        &MIXED,
    )?;
    stated(
        rt,
        b"a domain under a class: 8 1 1 20 4 v0 v0\n",
        &DOMAIN_BELOW,
    )
}

// The property of an atom is 2 by another atom. The statements lent are closed, whatever the kept facts lent are.
fn lent(rt: &impl Print) -> io::Result<()> {
    cases(
        rt,
        b"a property that is named: 8 2 1 40 24 v0 16 v0 v1 v1\n",
        &STATEMENTS,
        &NAMING_FACTS,
        &NAMING_KEPT,
    )?;
    cases(
        rt,
        b"v0 2 18, no kept facts: 8 1 1 v0 2 18 v0\n\
        v0 1 18, no kept facts: 8 1 1 v0 1 18 v0\n",
        &STATEMENTS,
        &FACTS,
        &NONE,
    )
}

// Cases with the tables of the worked example.
fn example(rt: &impl Print, lines: &[u8]) -> io::Result<()> {
    cases(rt, lines, &STATEMENTS, &FACTS, &KEPT)
}

// Cases with statements alone.
fn stated(rt: &impl Print, lines: &[u8], statements: &[u32]) -> io::Result<()> {
    cases(rt, lines, statements, &NONE, &NONE)
}

// Cases with the same tables, on a line each: a name, a colon, how many words of output are lent, and the words of the question.
fn cases(
    rt: &impl Print,
    lines: &[u8],
    statements: &[u32],
    facts: &[u32],
    kept: &[u32],
) -> io::Result<()> {
    let mut from = 0;
    while from < lines.len() {
        let colon = find(lines, from, b':');
        let end = find(lines, colon, b'\n');
        rt.write_all(&lines[from..colon])?;
        case(rt, &lines[colon..end], statements, facts, kept)?;
        if lines.len() <= end {
            return Ok(());
        }
        from = end + 1;
    }
    Ok(())
}

// A case by itself: what its line says behind the name.
fn case(
    rt: &impl Print,
    line: &[u8],
    statements: &[u32],
    facts: &[u32],
    kept: &[u32],
) -> io::Result<()> {
    let mut words = [0u32; 25];
    rt.write_all(b"\n")?;
    let n = read_words(line, &mut words);
    ask(rt, &words[..n], statements, facts, kept)
}

// Asks by both ways: the number of words of output comes before the question.
fn ask(
    rt: &impl Print,
    words: &[u32],
    statements: &[u32],
    facts: &[u32],
    kept: &[u32],
) -> io::Result<()> {
    if words.len() == 0 {
        return Ok(());
    }
    let behind = 1;
    ask_both(
        rt,
        statements,
        facts,
        kept,
        &words[behind..],
        within(words[0]),
    )
}

// So many words, if 16 are enough.
fn within(words: u32) -> usize
    ensures { result ≤ 16 }
{
    if words < 16 {
        return words as usize;
    }
    16
}

// Asks a question by both ways, into outputs of so many words.
fn ask_both(
    rt: &impl Print,
    statements: &[u32],
    facts: &[u32],
    kept: &[u32],
    question: &[u32],
    words: usize,
) -> io::Result<()>
    requires { words ≤ 16 }
{
    let mut by_kept = [7u32; 16];
    let mut by_rewriting = [7u32; 16];
    print_kept_way(rt, statements, kept, question, &mut by_kept[..words])?;
    print_rewritten_way(rt, statements, facts, question, &mut by_rewriting[..words])
}

// Asks by the kept way, and prints the reply and the output.
fn print_kept_way(
    rt: &impl Print,
    statements: &[u32],
    kept: &[u32],
    question: &[u32],
    out: &mut [u32],
) -> io::Result<()> {
    rt.write_all(b"  kept: ")?;
    let reply = query_ask::ask_kept(statements, kept, question, out);
    print_replied(rt, reply, out, 8)
}

// Asks by the rewritten way, and prints the reply and the output.
fn print_rewritten_way(
    rt: &impl Print,
    statements: &[u32],
    facts: &[u32],
    question: &[u32],
    out: &mut [u32],
) -> io::Result<()> {
    rt.write_all(b"  rewritten: ")?;
    let reply = query_ask::ask_rewritten(statements, facts, question, out);
    print_replied(rt, reply, out, 8)
}
