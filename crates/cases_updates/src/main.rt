// Runs document 01's cases about updates: prints each answer, and the kept rows with their supports after each case.
#![tactic(auto)]

ghost use Rattle.std.specs.Prelude.{◌*◌, ◌≤◌};

use report_store::{no_facts, no_kept, no_statements, no_supports};
use spec::{Answer, Triple};
use std::io;

// The worked example's statements and facts, three words each.
const EXAMPLE: [u32; 21] = [
    16, 2, 17, 17, 2, 18, 19, 3, 20, 20, 4, 17, 20, 5, 16, 32, 19, 33, 32, 1, 16,
];

// A loop of two classes, and a thing in one of them.
const LOOP: [u32; 9] = [16, 2, 17, 17, 2, 16, 32, 1, 16];

// A property whose domain and range are one class, and a fact whose subject is its object.
const SELF_TYPED: [u32; 9] = [21, 4, 16, 21, 5, 16, 32, 21, 32];

// The worked example's statements, and a fact about a literal.
const LITERAL: [u32; 18] = [
    16, 2, 17, 17, 2, 18, 19, 3, 20, 20, 4, 17, 20, 5, 16, 32, 20, 0x80000001,
];

// A property with a range, and a fact of it whose object is a blank.
const BLANK: [u32; 6] = [20, 5, 16, 32, 20, 0x40000001];

// Two subproperty steps, a fact of the lowest property, and one that it carries.
const STEPS: [u32; 12] = [19, 3, 20, 20, 3, 21, 32, 19, 33, 32, 20, 33];

// What is refused: no triple, sides that are not allowed; and what is idle.
const REFUSED: [u32; 12] = [0x80000001, 2, 16, 19, 3, 1, 16, 2, 17, 16, 2, 17];

fn main(rt: HostRuntime) -> io::Result<()> {
    example(&rt)?;
    case(&rt, b"loop\n", &LOOP)?;
    case(&rt, b"subject is object\n", &SELF_TYPED)?;
    case(&rt, b"literal\n", &LITERAL)?;
    case(&rt, b"blank\n", &BLANK)?;
    case(&rt, b"two subproperty steps\n", &STEPS)?;
    case(&rt, b"refused and idle\n", &REFUSED)?;
    full(&rt)
}

// The worked example, then 32 1 16 withdrawn, and withdrawn again.
fn example(rt: &impl Print) -> io::Result<()> {
    rt.write_all(b"worked example\n")?;
    let mut statements = no_statements();
    let mut facts = no_facts();
    let mut kept = no_kept();
    let mut supports = no_supports();
    add_all(
        rt,
        &mut statements,
        &mut facts,
        &mut kept,
        &mut supports,
        &EXAMPLE,
    )?;
    print_kept(rt, &kept, &supports)?;
    let fact = Triple {
        subject: 32,
        property: 1,
        object: 16,
    };
    print_answer(
        rt,
        store::withdraw(&mut statements, &mut facts, &mut kept, &mut supports, fact),
    )?;
    print_kept(rt, &kept, &supports)?;
    print_answer(
        rt,
        store::withdraw(&mut statements, &mut facts, &mut kept, &mut supports, fact),
    )
}

// A case by itself: each triple added to an empty store, then what is kept.
fn case(rt: &impl Print, name: &[u8], triples: &[u32]) -> io::Result<()> {
    rt.write_all(name)?;
    let mut statements = no_statements();
    let mut facts = no_facts();
    let mut kept = no_kept();
    let mut supports = no_supports();
    add_all(
        rt,
        &mut statements,
        &mut facts,
        &mut kept,
        &mut supports,
        triples,
    )?;
    print_kept(rt, &kept, &supports)
}

// A chain of 512 statements enters, statement 513 gets 4, and a thing in the first class is in all of them.
fn full(rt: &impl Print) -> io::Result<()> {
    rt.write_all(b"512 statements\n")?;
    let mut statements = no_statements();
    let mut facts = no_facts();
    let mut kept = no_kept();
    let mut supports = no_supports();
    let applied = add_chain(&mut statements, &mut facts, &mut kept, &mut supports, 512);
    print_count(rt, applied)?;
    let more = add_chain(&mut statements, &mut facts, &mut kept, &mut supports, 513);
    print_count(rt, more)?;
    print_answer(
        rt,
        store::add(
            &mut statements,
            &mut facts,
            &mut kept,
            &mut supports,
            Triple {
                subject: 528,
                property: 2,
                object: 529,
            },
        ),
    )?;
    print_answer(
        rt,
        store::add(
            &mut statements,
            &mut facts,
            &mut kept,
            &mut supports,
            Triple {
                subject: 2000,
                property: 1,
                object: 16,
            },
        ),
    )?;
    print_word(rt, kept[0])
}

// Adds the statements 16 2 17, 17 2 18, .. of a chain of n steps; how many were applied.
fn add_chain(
    statements: &mut [u32],
    facts: &mut [u32],
    kept: &mut [u32],
    supports: &mut [u16],
    n: u32,
) -> usize
    requires { n ≤ 513 }
    ensures { result ≤ n }
{
    let mut applied: usize = 0;
    for i in 0..n {
        let statement = Triple {
            subject: 16 + i,
            property: 2,
            object: 17 + i,
        };
        match store::add(statements, facts, kept, supports, statement) {
            Answer::Applied => applied += 1,
            Answer::Idle => continue,
            Answer::Refused(_) => continue,
        }
    }
    applied
}

// Adds each triple of some, three words each, and prints the answers.
fn add_all(
    rt: &impl Print,
    statements: &mut [u32],
    facts: &mut [u32],
    kept: &mut [u32],
    supports: &mut [u16],
    triples: &[u32],
) -> io::Result<()> {
    let n = triples.len() / 3;
    for i in 0..n {
        let at = i * 3;
        let triple = Triple {
            subject: triples[at],
            property: triples[at + 1],
            object: triples[at + 2],
        };
        print_answer(rt, store::add(statements, facts, kept, supports, triple))?;
    }
    Ok(())
}

// Prints an answer on a line.
fn print_answer(rt: &impl Print, answer: Answer) -> io::Result<()> {
    match answer {
        Answer::Applied => rt.write_all(b"applied\n"),
        Answer::Idle => rt.write_all(b"idle\n"),
        Answer::Refused(n) => println!(rt; "refused {n}"),
    }
}

// Prints a number on a line.
fn print_count(rt: &impl Print, n: usize) -> io::Result<()> {
    println!(rt; "{n}")
}

// Prints a word on a line.
fn print_word(rt: &impl Print, w: u32) -> io::Result<()> {
    println!(rt; "{w}")
}

// Prints each kept row with its support on a line.
fn print_kept(rt: &impl Print, kept: &[u32], supports: &[u16]) -> io::Result<()> {
    let n = kept.len() / 3;
    for (i, support) in supports.iter().enumerate() {
        if *support == 0 {
            return Ok(());
        }
        if n <= i + 1 {
            return Ok(());
        }
        let at = i * 3;
        print_row(rt, kept[at + 1], kept[at + 2], kept[at + 3], *support)?;
    }
    Ok(())
}

// Prints a row and its support on a line.
fn print_row(
    rt: &impl Print,
    subject: u32,
    property: u32,
    object: u32,
    support: u16,
) -> io::Result<()> {
    println!(rt; "  {subject} {property} {object} {support}")
}
