// Runs document 01's cases about alternatives: prints each reply, and every word of the output, which was all 7 before the call.
#![tactic(auto)]

ghost use Rattle.std.specs.Prelude.{◌≡◌, ◌≤◌, length, replicate};

use cases_printing::print_replied;
use query_alternatives::alternatives;
use report_store::no_statements;
use spec::Triple;
use std::io;

// The worked example's statements: their count, then three words each.
const EXAMPLE: [u32; 16] = [5, 16, 2, 17, 17, 2, 18, 19, 3, 20, 20, 4, 17, 20, 5, 16];

// A class that is blank, below and above others.
const BLANK_CLASS: [u32; 10] = [3, 16, 2, 0x40000001, 20, 4, 0x40000001, 0x40000001, 2, 17];

// A loop of two classes, and one of two properties.
const LOOPS: [u32; 13] = [4, 16, 2, 17, 17, 2, 16, 19, 3, 20, 20, 3, 19];

// Two subproperty steps, and a range of the highest property.
const STEPS: [u32; 10] = [3, 19, 3, 20, 20, 3, 21, 21, 5, 16];

// Statements that do not ascend.
const DESCENDING: [u32; 7] = [2, 17, 2, 18, 16, 2, 17];

// The variables 0 and 1.
const V0: u32 = 0xC0000000;

const V1: u32 = 0xC0000001;

// A blank, a literal, a variable that there is not, and a word that is no term.
const BLANK: u32 = 0x40000001;

const LITERAL: u32 = 0x80000001;

const V16: u32 = 0xC0000010;

const NO_TERM: u32 = 0;

fn main(rt: HostRuntime) -> io::Result<()> {
    example(&rt)?;
    blank_class(&rt)?;
    loops(&rt)?;
    steps(&rt)?;
    chain(&rt)?;
    refused(&rt)?;
    no_atoms(&rt)
}

// The worked example, then every alternative under its statements, and those of a property.
fn example(rt: &impl Print) -> io::Result<()> {
    case(rt, b"worked example\n", &EXAMPLE, atom(V0, 1, 17), 20)?;
    case(rt, b"all variables\n", &EXAMPLE, atom(V0, V1, V0), 48)?;
    case(rt, b"a property\n", &EXAMPLE, atom(V0, 20, V1), 9)
}

// Blank classes are sources, and targets where the object is a variable.
fn blank_class(rt: &impl Print) -> io::Result<()> {
    case(rt, b"blank source\n", &BLANK_CLASS, atom(V0, 1, 17), 15)?;
    case(rt, b"blank target\n", &BLANK_CLASS, atom(V0, 1, V1), 20)
}

// In a loop nothing is its own alternative.
fn loops(rt: &impl Print) -> io::Result<()> {
    case(rt, b"loop of classes\n", &LOOPS, atom(V0, 1, 16), 9)?;
    case(rt, b"loop of properties\n", &LOOPS, atom(V0, 19, V1), 9)
}

// Both properties below lead to the highest one, and to its range.
fn steps(rt: &impl Print) -> io::Result<()> {
    case(rt, b"two subproperty steps\n", &STEPS, atom(V0, 21, V1), 12)?;
    case(
        rt,
        b"subproperty steps and a range\n",
        &STEPS,
        atom(V0, 1, 16),
        15,
    )
}

// Room for 513 rows, all 7.
fn sevens() -> [u32; 1539]
    ensures { result ≡ replicate 1539 7 }
{
    [7u32; 1539]
}

// A chain of 512 subclass steps: each class but the last is a source.
fn chain(rt: &impl Print) -> io::Result<()> {
    let mut statements = no_statements();
    fill_chain(&mut statements);
    let mut out = sevens();
    rt.write_all(b"chain of 512 steps\n")?;
    let reply = alternatives(&statements, atom(V0, 1, 528), &mut out);
    print_replied(rt, reply, &out, 3)
}

// The statements 16 2 17, 17 2 18, .. of a chain of 512 steps.
fn fill_chain(statements: &mut [u32])
    requires { 1537 ≤ length statements.old }
{
    for i in 0..512u32 {
        let at = i as usize * 3;
        statements[at + 1] = 16 + i;
        statements[at + 2] = 2;
        statements[at + 3] = 17 + i;
    }
    statements[0] = 512;
}

// Six rows fit 18 words and not 17. Statements that do not ascend get 1, which comes before 6, and 6 before 8.
fn refused(rt: &impl Print) -> io::Result<()> {
    case(rt, b"exactly enough\n", &EXAMPLE, atom(V0, 1, 17), 18)?;
    case(rt, b"one word short\n", &EXAMPLE, atom(V0, 1, 17), 17)?;
    case(rt, b"descending\n", &DESCENDING, atom(V0, 1, 17), 6)?;
    case(
        rt,
        b"descending, and a blank\n",
        &DESCENDING,
        atom(V0, 1, BLANK),
        6,
    )?;
    case(
        rt,
        b"a blank, and no room\n",
        &EXAMPLE,
        atom(V0, 1, BLANK),
        2,
    )
}

// What is no atom gets 6.
fn no_atoms(rt: &impl Print) -> io::Result<()> {
    case(rt, b"a blank\n", &BLANK_CLASS, atom(V0, 1, BLANK), 6)?;
    case(
        rt,
        b"a literal subject\n",
        &EXAMPLE,
        atom(LITERAL, 1, 17),
        6,
    )?;
    case(
        rt,
        b"a literal property\n",
        &EXAMPLE,
        atom(V0, LITERAL, 17),
        6,
    )?;
    case(rt, b"the word 0\n", &EXAMPLE, atom(V0, 1, NO_TERM), 6)?;
    case(rt, b"variable 16\n", &EXAMPLE, atom(V16, 1, 17), 6)
}

// An atom of three words.
fn atom(subject: u32, property: u32, object: u32) -> Triple {
    Triple {
        subject: subject,
        property: property,
        object: object,
    }
}

// A case by itself: the alternatives of an atom, into an output of so many words.
fn case(
    rt: &impl Print,
    name: &[u8],
    statements: &[u32],
    atom: Triple,
    words: usize,
) -> io::Result<()>
    requires { words ≤ 48 }
{
    let mut out = [7u32; 48];
    rt.write_all(name)?;
    print_alternatives(rt, statements, atom, &mut out[..words])
}

// Works out alternatives, and prints the reply and the output.
fn print_alternatives(
    rt: &impl Print,
    statements: &[u32],
    atom: Triple,
    out: &mut [u32],
) -> io::Result<()> {
    let reply = alternatives(statements, atom, out);
    print_replied(rt, reply, out, 3)
}
